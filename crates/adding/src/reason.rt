//! What is refused, and by which number.

ghost use Rattle.std.specs.Prelude.{◌≡◌};
ghost use Rattle.adding.specs.Reason.{number};

// Why there is no verdict, in the order of document 01's numbers. Nothing here makes an `Other`: it is a number that a caller has of its own, and whatever takes a
// reason hands it on as it is.
#[derive(Clone, Copy, PartialEq, Eq, Debug)]
pub enum Reason {
    BrokenLength,
    UnknownKind,
    ByteNotZero,
    PastLimit,
    ThereAlready,
    NoInitialState,
    TooLittleLent,
    StemsFull,
    PeriodsFull,
    EmptyPeriod,
    LetterPastLimit,
    Other(u8),
}

impl Reason {
    // Document 01's number of the refusal, or the caller's.
    pub fn number(self) -> u8
        ensures { result ≡ number self }
    {
        match self {
            Reason::BrokenLength => 1,
            Reason::UnknownKind => 2,
            Reason::ByteNotZero => 3,
            Reason::PastLimit => 4,
            Reason::ThereAlready => 5,
            Reason::NoInitialState => 6,
            Reason::TooLittleLent => 7,
            Reason::StemsFull => 8,
            Reason::PeriodsFull => 9,
            Reason::EmptyPeriod => 10,
            Reason::LetterPastLimit => 11,
            Reason::Other(number) => number,
        }
    }
}

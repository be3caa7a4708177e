//! Runs document 01's sample models of the entry point, M1 to M7 and M10 to M13, and prints for each its name, S and P, the nine numbers of its answer
//! (number, which, place, u, w, p, t, and the letters of the stem and of the period that are shown), and those letters. Cases of one sample come in
//! document 01's order; the last of M13 is lent a stem output of S - 1 bytes.
#![tactic(auto)]

ghost use Rattle.std.specs.Prelude.{◌≡◌, length};

use inclusion::Answer;
use search::{Lent, Room};
use std::io;

fn numbers(rt: &impl Print, row: [u64; 9]) -> io::Result<()> {
    for n in row {
        print!(rt; " {n}")?;
    }
    println!(rt)
}

// The first letters of an output.
fn word(rt: &impl Print, name: &str, output: &[u8], count: usize) -> io::Result<()> {
    print!(rt; "{name}")?;
    for letter in output.iter().take(count) {
        print!(rt; " {letter}")?;
    }
    println!(rt)
}

// The words that an answer shows, if it does.
fn shown(rt: &impl Print, answer: Answer, stem: &[u8], period: &[u8]) -> io::Result<()> {
    let Answer::NotIncluded(_, lengths) = answer else {
        return Ok(());
    };
    word(rt, " stem:", stem, lengths.stem)?;
    word(rt, " period:", period, lengths.period)
}

// A long array of zeroes. The `ensures` gives its length, which lending it as a slice needs: of a long array that is a local, the elements are counted one by
// one when it is checked.
fn zeroes<T: Copy + Default, const N: usize>() -> [T; N]
    ensures { N ≡ length result }
{
    [T::default(); N]
}

// One case of a sample, by the sample's number, which is cheaper to check than a text for each.
#[derive(Clone, Copy)]
struct Case<'a> {
    sample: u64,
    model: &'a [u8],
    rule: &'a [u8],
    room: Room,
}

impl<'a> Case<'a> {
    // With the program's room.
    fn new(sample: u64, model: &'a [u8], rule: &'a [u8]) -> Case<'a> {
        let room = Room {
            stems: 4096,
            periods: 2048,
        };
        Case {
            sample,
            model,
            rule,
            room,
        }
    }

    // Under a rule that accepts nothing.
    fn under_nothing(sample: u64, model: &'a [u8]) -> Case<'a> {
        Case::new(sample, model, b"I\0\0\0")
    }

    fn with_room(self, stems: usize, periods: usize) -> Case<'a> {
        Case {
            room: Room { stems, periods },
            ..self
        }
    }

    // The answer, with tables that are long enough for every S and P here.
    fn decided(self, stem: &mut [u8], period: &mut [u8]) -> Answer {
        let mut smallest = [0u32; 4097];
        let mut largest = [0u32; 4097];
        let mut links = zeroes::<u32, 65536>();
        let mut contexts = zeroes::<u64, 131072>();
        let mut lent = Lent {
            smallest: &mut smallest,
            largest: &mut largest,
            links: &mut links,
            contexts: &mut contexts,
            stem,
            period,
        };
        inclusion::decide(self.model, self.rule, self.room, &mut lent)
    }

    // Prints the case and its answer, with a stem output that the caller lends.
    fn lent(self, rt: &impl Print, stem: &mut [u8]) -> io::Result<()> {
        let mut period = zeroes::<u8, 65536>();
        let answer = self.decided(stem, &mut period);
        let Room { stems, periods } = self.room;
        print!(rt; "M{} S = {stems}, P = {periods}:", self.sample)?;
        numbers(rt, inclusion::numbers(answer))?;
        shown(rt, answer, stem, &period)
    }

    // The same with a stem output that is long enough.
    fn print(self, rt: &impl Print) -> io::Result<()> {
        let mut stem = [0u8; 4097];
        self.lent(rt, &mut stem)
    }
}

// M1 to M3: verdicts.
fn verdicts(rt: &impl Print, all: &[u8], often: &[u8]) -> io::Result<()> {
    Case::new(1, all, often).print(rt)?;
    Case::new(2, often, all).print(rt)?;
    Case::new(3, often, often).print(rt)
}

// M4 and M5: no accepting state, and one.
fn accepting(rt: &impl Print) -> io::Result<()> {
    Case::under_nothing(4, b"I\0\0\0T\0\0\0").print(rt)?;
    Case::under_nothing(5, b"I\0\0\0T\0\0\0F\0\0\0").print(rt)
}

// M6 and M7: room.
fn room(rt: &impl Print, all: &[u8], often: &[u8]) -> io::Result<()> {
    Case::new(6, all, often).with_room(1, 2048).print(rt)?;
    Case::new(6, all, often).with_room(2, 2048).print(rt)?;
    Case::new(7, all, often).with_room(4096, 1).print(rt)?;
    Case::new(7, all, often).with_room(4096, 2).print(rt)
}

// M10 and M11: a model's largest state, and one more; and so a rule's.
fn states(rt: &impl Print) -> io::Result<()> {
    Case::under_nothing(10, b"I\x0f\0\0").print(rt)?;
    Case::under_nothing(10, b"I\x10\0\0").print(rt)?;
    Case::new(11, b"I\0\0\0", b"I\x07\0\0").print(rt)?;
    Case::new(11, b"I\0\0\0", b"I\x08\0\0").print(rt)
}

// M12: files without a whole record.
fn cut_short(rt: &impl Print) -> io::Result<()> {
    Case::under_nothing(12, b"").print(rt)?;
    Case::under_nothing(12, b"I\0\0").print(rt)
}

// M13: room out of range, and a stem output that is too short.
fn limits(rt: &impl Print, all: &[u8], often: &[u8]) -> io::Result<()> {
    let case = Case::new(13, all, often);
    case.with_room(0, 2048).print(rt)?;
    case.with_room(4097, 2048).print(rt)?;
    case.with_room(4096, 65536).print(rt)?;
    let mut short = [0u8; 4095];
    case.lent(rt, &mut short)
}

fn main(rt: HostRuntime) -> io::Result<()> {
    let all = b"I\0\0\0F\0\0\0T\0\0\0T\0\x01\0";
    let often = b"I\0\0\0F\x01\0\0T\0\0\x01T\0\x01\0T\x01\0\x01T\x01\x01\0";
    verdicts(&rt, all, often)?;
    accepting(&rt)?;
    room(&rt, all, often)?;
    states(&rt)?;
    cut_short(&rt)?;
    limits(&rt, all, often)
}

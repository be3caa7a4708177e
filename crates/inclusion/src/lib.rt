//! The entry point: two record files, the room, and six lent buffers.
#![tactic(auto)]

ghost use Rattle.std.specs.Prelude.{[], ◌∷◌, ◌≡◌};
ghost use Rattle.search.specs.Contract.{contents, StillLent};
ghost use Rattle.inclusion.specs.Answers.{answer_to, numbers_of};
ghost use Rattle.inclusion.specs.Decided.{Decided};

use adding::Reason;
use automata::{Automaton, Head};
use loading::Sizes;
use records::Refusal;
use search::{Counts, Ending, Lengths, Lent, Room};

// What the tool answers: a verdict with its counts, for a shown lasso the lengths of its words, or a refusal with the counts so far. No Result: who
// asks looks at all three, no `?` hands one on, and each has its counts.
#[derive(Clone, Copy)]
pub enum Answer {
    Included(Counts),
    NotIncluded(Counts, Lengths),
    Refused(Refusal, Counts),
}

// The answer to how the walk ends: a table that lacks room is a refusal, whose place is its room.
#[tactic(auto, unfolding(crate::specs::Answers::answer_to))]
fn answer_to(room: Room, ending: Ending) -> Answer
    ensures { result ≡ answer_to room.stems room.periods ending }
{
    match ending {
        Ending::Included(counts) => Answer::Included(counts),
        Ending::Shown(counts, lengths) => Answer::NotIncluded(counts, lengths),
        Ending::StemsFull(which, counts) => {
            let refusal = Refusal {
                reason: Reason::StemsFull,
                which,
                place: room.stems,
            };
            Answer::Refused(refusal, counts)
        }
        Ending::PeriodsFull(counts) => {
            let refusal = Refusal {
                reason: Reason::PeriodsFull,
                which: 0,
                place: room.periods,
            };
            Answer::Refused(refusal, counts)
        }
    }
}

// The answer for a model and a rule: both files and what is lent are judged, and then the walk of the two loaded automata is made.
pub fn decide(model: &[u8], rule: &[u8], room: Room, lent: &mut Lent<'_>) -> Answer
    ensures lent { StillLent lent.old lent.new }
    ensures decided { Decided model.now rule.now room.stems room.periods (contents lent.old) result (contents lent.new) }
{
    let sizes = Sizes {
        smallest: lent.smallest.len(),
        largest: lent.largest.len(),
        links: lent.links.len(),
        contexts: lent.contexts.len(),
        stem: lent.stem.len(),
        period: lent.period.len(),
    };
    // Each table is read where it stays, and nothing of it is copied; until then the heads are none.
    let head = Head {
        start: 0,
        accepting: 0,
        states: 0,
    };
    let mut loaded_model = Automaton {
        table: [[0u16; 16]; 16],
        head,
    };
    let mut loaded_rule = Automaton {
        table: [[0u8; 8]; 16],
        head,
    };
    let heads = loading::load(
        model,
        rule,
        room,
        sizes,
        &mut loaded_model.table,
        &mut loaded_rule.table,
    );
    match heads {
        Ok((model_head, rule_head)) => {
            loaded_model.head = model_head;
            loaded_rule.head = rule_head;
            let ending = search::walk(&loaded_model, &loaded_rule, room, lent);
            answer_to(room, ending)
        }
        Err(refusal) => {
            let none = Counts {
                u: 0,
                w: 0,
                p: 0,
                t: 0,
            };
            Answer::Refused(refusal, none)
        }
    }
}

// Nine numbers in document 01's order.
fn row(number: u8, which: u8, place: usize, c: Counts, stem: usize, period: usize) -> [u64; 9]
    ensures { result ≡ number ∷ which ∷ place ∷ c.u ∷ c.w ∷ c.p ∷ c.t ∷ stem ∷ period ∷ [] }
{
    [
        u64::from(number),
        u64::from(which),
        place as u64,
        c.u as u64,
        c.w as u64,
        c.p as u64,
        c.t as u64,
        stem as u64,
        period as u64,
    ]
}

// Document 01's nine numbers of an answer.
#[tactic(auto, unfolding(crate::specs::Answers::numbers_of))]
pub fn numbers(answer: Answer) -> [u64; 9]
    ensures { result ≡ numbers_of answer }
{
    match answer {
        Answer::Included(c) => row(0, 0, 0, c, 0, 0),
        Answer::NotIncluded(c, l) => row(0, 0, 0, c, l.stem, l.period),
        Answer::Refused(r, c) => row(r.reason.number(), r.which, r.place, c, 0, 0),
    }
}

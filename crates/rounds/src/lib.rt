//! The rounds: for each accepting state s of the model, and each entry of W at s, a period table built afresh and the lassos tested. The counts so
//! far go with them.
#![tactic(auto)]

ghost use Rattle.std.specs.Prelude.{◌≡◌, true, ◌*◌, ◌^◌, ◌<◌, ◌≤◌, Result, length};
ghost use Rattle.bits.specs.Bits.{bit};
ghost use Rattle.automata.specs.Loaded.{aut};
ghost use Rattle.walk.specs.Walk.{round_at, rounds_at, rounds};
ghost use Rattle.rounds.specs.Finished.{Finished};
ghost use Rattle.rounds.specs.Round.{answered, Ready, StillLent};

use automata::{Model, Rule};
use bits::entries;
use bits::members::Set;
use lassos::Rejected;

// The counts so far: the most entries that a period table had, and the tests made.
#[derive(Clone, Copy, PartialEq, Eq, Debug)]
pub struct Tally {
    pub p: usize,
    pub t: usize,
}

// A lasso by the indices of its stem and its period, in a period table of that size.
#[derive(Clone, Copy, PartialEq, Eq, Debug)]
pub struct Lasso {
    pub stem: usize,
    pub period: usize,
    pub size: usize,
}

// Why the rounds stop before their end: a period table lacks room, or a lasso was rejected.
#[derive(Clone, Copy, PartialEq, Eq, Debug)]
pub enum Stop {
    Lacking(Tally),
    Found(Tally, Lasso),
}

// What all rounds share: the stems, the room for periods, and the two automata.
#[derive(Clone, Copy)]
struct Setting<'a> {
    stems: &'a [u32],
    room: usize,
    model: &'a Model,
    rule: &'a Rule,
}

// What every round builds its period table in: the links and the contexts hold the entries. The scratch serves within a round, first the growth of the table
// and then its tests: what it holds at the end of either does not matter.
#[derive(Drop)]
struct Lent<'a> {
    links: &'a mut [u32],
    contexts: &'a mut [u64],
    scratch: &'a mut [u16],
}

// What the tests of a table of this size come to; before it, the largest table had `before` entries.
fn counted(tests: Result<usize, Rejected>, before: usize, size: usize) -> Result<Tally, Stop>
    ensures { result ≡ answered size before tests }
{
    let p = before.max(size);
    match tests {
        Ok(t) => Ok(Tally { p, t }),
        Err(r) => {
            let lasso = Lasso {
                stem: r.stem,
                period: r.period,
                size,
            };
            Err(Stop::Found(Tally { p, t: r.tests }, lasso))
        }
    }
}

// The round of an entry of W, if it is at s: the period table afresh, then its lassos.
fn round(on: Setting, entry: u32, lent: &mut Lent, s: u8, tally: Tally) -> Result<Tally, Stop>
    requires ready { Ready on.room tally.t on.stems.now lent.old }
    requires s_bound { (s < 16) × (bit on.model.now.head.accepting s ≡ true) }
    ensures lent { StillLent lent.old lent.new }
    ensures finished { let A = aut on.entry.model.now in
        Finished A (aut on.entry.rule.now) on.entry.stems.now on.entry.room (round_at A s entry) tally.p tally.t result lent.new.links.now }
{
    if entries::stem_state(entry) != s {
        return Ok(tally);
    }
    let target = entries::stem_target(entry);
    // Each is lent by itself, since the scratch is written meanwhile.
    let links = &mut *lent.links;
    let contexts = &mut *lent.contexts;
    let grown = periods::grow(
        links,
        contexts,
        lent.scratch,
        on.room,
        s,
        target,
        on.model,
        on.rule,
    );
    let Ok(n) = grown else {
        return Err(Stop::Lacking(Tally {
            p: tally.p.max(on.room),
            t: tally.t,
        }));
    };
    let links = &*links;
    let contexts = &*contexts;
    let tests = lassos::first_rejected(
        on.stems,
        &links[..n],
        &contexts[..2 * n],
        lent.scratch,
        s,
        target,
        tally.t,
    );
    counted(tests, tally.p, n)
}

// The rounds of a state: if it is accepting, those of the entries of W, in table order.
fn at_state(
    on: Setting,
    largest: &[u32],
    lent: &mut Lent,
    s: u8,
    before: Tally,
) -> Result<Tally, Stop>
    requires ready { Ready on.room before.t on.stems.now lent.old }
    requires s_bound { (s < 16) × (length largest.now ≤ 4096) × (before.t ≤ 2 ^ 48) }
    ensures lent { StillLent lent.old lent.new }
    ensures finished { let A = aut on.entry.model.now in
        Finished A (aut on.entry.rule.now) on.entry.stems.now on.entry.room (rounds_at A largest.now s) before.p before.t result lent.new.links.now }
{
    if !on.model.head.accepting.has(usize::from(s)) {
        return Ok(before);
    }
    let mut tally = before;
    for entry in largest {
        tally = round(on, *entry, lent, s, tally)?;
    }
    Ok(tally)
}

// The rounds of each state, rising.
fn each_state(on: Setting, largest: &[u32], lent: &mut Lent) -> Result<Tally, Stop>
    requires ready { Ready on.room 0 on.stems.now lent.old }
    requires largest_len_bound { length largest.now ≤ 4096 }
    ensures lent { StillLent lent.old lent.new }
    ensures finished { let A = aut on.entry.model.now in let B = aut on.entry.rule.now in
        Finished A B on.entry.stems.now on.entry.room (rounds A B largest.now) 0 0 result lent.new.links.now }
{
    let mut tally = Tally { p: 0, t: 0 };
    for s in 0..16u8 {
        tally = at_state(on, largest, lent, s, tally)?;
    }
    Ok(tally)
}

// A scratch for every room. The `ensures` gives the length, which lending it as a slice needs: of a long array that is a local, the elements are counted one
// by one when it is checked. (A function of any type and length would need a crate of its own, for this and one of samples.)
fn large_scratch() -> [u16; 131102]
    ensures { 131102 ≡ length result }
{
    [0; 131102]
}

// The rounds of each state, in a scratch that is large enough for the room. Most calls do with a small one, which takes less time to set up; it has
// places for twice the entries, so that there are enough guesses.
pub fn all(
    stems: &[u32],
    largest: &[u32],
    links: &mut [u32],
    contexts: &mut [u64],
    room: usize,
    model: &Model,
    rule: &Rule,
) -> Result<Tally, Stop>
    requires stems_len_bound { (length stems.now ≤ 4096) × (length largest.now ≤ 4096) }
    requires room_bound { (room ≤ 65535) × (room ≤ length links.old) × (2 * room ≤ length contexts.old) }
    ensures { Finished (aut model.now) (aut rule.now) stems.now room (rounds (aut model.now) (aut rule.now) largest.now) 0 0 result links.new }
{
    let on = Setting {
        stems,
        room,
        model,
        rule,
    };
    if room <= 2048 {
        let mut small = [0u16; 8224];
        let mut lent = Lent {
            links,
            contexts,
            scratch: &mut small,
        };
        return each_state(on, largest, &mut lent);
    }
    let mut large = large_scratch();
    let mut lent = Lent {
        links,
        contexts,
        scratch: &mut large,
    };
    each_state(on, largest, &mut lent)
}

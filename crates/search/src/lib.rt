//! The walk on loaded automata and lent tables.
#![tactic(auto)]

ghost use Rattle.std.specs.Prelude.{◌≡◌, ◌*◌, ◌≤◌, length, replicate, Some};
ghost use Rattle.automata.specs.Loaded.{aut};
ghost use Rattle.growth.specs.Lent.{over};
ghost use Rattle.walk.specs.Walk.{walk};
ghost use Rattle.rounds.specs.Finished.{finish_of};
ghost use Rattle.search.specs.declared.Ending.TheVariants.{StemsFull};
ghost use Rattle.search.specs.Text.{counts_text};
ghost use Rattle.search.specs.Contract.{contents, StillLent, Prepared, Concluded, Told, Showable, Shows};

use automata::{Model, Rule};
use rounds::{Stop, Tally};
use spelling::{PeriodLink, StemEntry};
use std::fmt;

// How many entries there may be: of each stem table S, of a period table P.
#[derive(Clone, Copy)]
pub struct Room {
    pub stems: usize,
    pub periods: usize,
}

// The six lent buffers.
#[derive(Drop)]
pub struct Lent<'a> {
    pub smallest: &'a mut [u32],
    pub largest: &'a mut [u32],
    pub links: &'a mut [u32],
    pub contexts: &'a mut [u64],
    pub stem: &'a mut [u8],
    pub period: &'a mut [u8],
}

// Document 01's counts: the entries of U and of W, the most entries that a period table had, the tests made.
#[derive(Clone, Copy)]
pub struct Counts {
    pub u: usize,
    pub w: usize,
    pub p: usize,
    pub t: usize,
}

impl fmt::Display for Counts {
    ghost output = { λ counts. Some (counts_text counts) };

    fn fmt<W: fmt::Write>(&self, f: &mut fmt::Formatter<W>) -> fmt::Result {
        write!(f, "U={} W={} P={} T={}", self.u, self.w, self.p, self.t)
    }
}

// The letters of the stem and of the period that are shown.
#[derive(Clone, Copy)]
pub struct Lengths {
    pub stem: usize,
    pub period: usize,
}

// How the walk ends: no lasso was rejected, one was and is shown, or a table lacks room (a stem table: 0 for U, 1 for W, which is
// the refusal's `which`). No Result: none of the four is handed on by a `?`, and each has its counts.
#[derive(Clone, Copy)]
pub enum Ending {
    Included(Counts),
    Shown(Counts, Lengths),
    StemsFull(u8, Counts),
    PeriodsFull(Counts),
}

// The counts of a walk with these stem tables.
fn counted(u: usize, w: usize, tally: Tally) -> Counts
    ensures { result ≡ record { u = u; w = w; p = tally.p; t = tally.t } }
{
    let Tally { p, t } = tally;
    Counts { u, w, p, t }
}

// Writes the words of a rejected lasso, if there is one, and says how the walk ends.
#[tactic(auto, unfolding(crate::specs::Ending::ending_by, crate::specs::Ending::stem_shown, crate::specs::Ending::period_shown, growth::specs::Lent::over))]
fn show(
    found: Result<Tally, Stop>,
    stems: &[u32],
    w: usize,
    links: &[u32],
    stem: &mut [u8],
    period: &mut [u8],
) -> Ending
    requires { Showable stems.now links.now stem.old period.old found }
    ensures { Shows (length stems.now) w (finish_of stems.now links.now found)
        stem.old stem.new period.old period.new result }
{
    let u = stems.len();
    match found {
        Ok(tally) => Ending::Included(counted(u, w, tally)),
        Err(Stop::Lacking(tally)) => Ending::PeriodsFull(counted(u, w, tally)),
        Err(Stop::Found(tally, lasso)) => {
            let stem_letters = spelling::write::<StemEntry>(stems, lasso.stem, stem);
            let table = &links[..lasso.size];
            let period_letters = spelling::write::<PeriodLink>(table, lasso.period, period);
            let lengths = Lengths {
                stem: stem_letters,
                period: period_letters,
            };
            Ending::Shown(counted(u, w, tally), lengths)
        }
    }
}

// The ending where a stem table lacks room: no round was begun.
fn stems_full(table: u8, u: usize, w: usize) -> Ending
    ensures { result ≡ StemsFull table (record { u = u; w = w; p = 0; t = 0 }) }
{
    Ending::StemsFull(table, counted(u, w, Tally { p: 0, t: 0 }))
}

// Both stem tables, the rounds, and the words of the lasso that they may find. The first links and contexts are left as the last period table has them.
#[tactic(auto, unfolding(automata::specs::Loaded::aut_of))]
fn tell(model: &Model, rule: &Rule, room: Room, lent: &mut Lent) -> Ending
    requires { Prepared (aut model.now) (aut rule.now) room.stems room.periods (contents lent.old) }
    ensures lent { StillLent lent.old lent.new }
    ensures told { Told (walk (aut model.now) (aut rule.now) room.stems room.periods) room.periods (contents lent.old) (contents lent.new) result }
{
    let first = stems::grow(lent.smallest, room.stems, model, rule, false);
    let Ok(u) = first else {
        return stems_full(0, room.stems, 0);
    };
    let second = stems::grow(lent.largest, room.stems, model, rule, true);
    let Ok(w) = second else {
        return stems_full(1, u, room.stems);
    };
    // Each part is lent by itself.
    let u_table = &mut lent.smallest[..u];
    let w_table = &mut lent.largest[..w];
    let links = &mut lent.links[..room.periods];
    let contexts = &mut lent.contexts[..2 * room.periods];
    let found = rounds::all(u_table, w_table, links, contexts, room.periods, model, rule);
    show(found, u_table, w, links, lent.stem, lent.period)
}

// Zeroes in place of the links and the contexts of so many periods.
#[tactic(auto, unfolding(growth::specs::Lent::over))]
fn clear(links: &mut [u32], contexts: &mut [u64], periods: usize)
    requires { (periods ≤ length links.old) × (2 * periods ≤ length contexts.old) }
    ensures links { links.new ≡ over (replicate periods 0) links.old }
    ensures contexts { contexts.new ≡ over (replicate (2 * periods) 0) contexts.old }
{
    links[..periods].fill(0);
    contexts[..2 * periods].fill(0);
}

// The walk: what it answers, with the period table cleared.
pub fn walk(model: &Model, rule: &Rule, room: Room, lent: &mut Lent) -> Ending
    requires { Prepared (aut model.now) (aut rule.now) room.stems room.periods (contents lent.old) }
    ensures lent { StillLent lent.old lent.new }
    ensures concluded { Concluded (walk (aut model.now) (aut rule.now) room.stems room.periods) room.periods (contents lent.old) (contents lent.new) result }
{
    let ending = tell(model, rule, room, lent);
    clear(lent.links, lent.contexts, room.periods);
    ending
}

//! The lassos of one round: each stem at s with target inside w's, with each period at s, tested in order up to the first rejected one.
#![tactic(auto)]

ghost use Rattle.std.specs.Prelude.{◌≡◌, ◌+◌, ◌*◌, ◌^◌, ◌<◌, ◌≤◌, length};
ghost use Rattle.bits.specs.Sets.{meets};
ghost use Rattle.bits.specs.Fields.{stem_target};
ghost use Rattle.automata.specs.Repeated.{repeated};
ghost use Rattle.covering.specs.Entries.{context_in};
ghost use Rattle.walk.specs.Walk.{search, fits, pairs_of, accepts};
ghost use Rattle.lassos.specs.Pairs.{found_of, meeting, Accepting, Few};

use automata::Context;
use bits::{entries, members};

// The first rejected lasso, by the indices of its stem and its period, with the tests made up to it.
#[derive(Clone, Copy, PartialEq, Eq, Debug)]
pub struct Rejected {
    pub tests: usize,
    pub stem: usize,
    pub period: usize,
}

// The set from which the period at j is accepted.
fn set_of(contexts: &[u64], j: usize) -> u16
    requires { 2 * j + 1 < length contexts.now }
    ensures { result ≡ repeated 8 (context_in contexts.now j) }
{
    let reach = contexts[2 * j];
    let through = contexts[2 * j + 1];
    u16::from(Context { reach, through }.repeated())
}

// The sets of all periods at s, each found once: a test then needs no more than the set.
fn put_sets(links: &[u32], contexts: &[u64], s: u8, sets: &mut [u16])
    requires { (length links.now ≤ length sets.old) × (2 * length links.now ≤ length contexts.now) }
    ensures { Accepting s links.now contexts.now sets.new }
{
    for (j, link) in links.iter().enumerate() {
        if entries::link_state(*link) == s {
            sets[j] = set_of(contexts, j);
        }
    }
}

// Is a stem at s, with target inside w's?
#[tactic(auto, unfolding(walk::specs::Walk::fits))]
fn fits(entry: u32, s: u8, target: u8) -> bool
    ensures { result ≡ fits s target entry }
{
    entries::stem_state(entry) == s && members::within(entries::stem_target(entry), target)
}

// One test: the lasso is accepted if the stem leads to a state from which its period is.
#[tactic(auto, using(bits::proofs::Sets::meets_test))]
fn accepted(entry: u32, set: u16) -> bool
    ensures { result ≡ meets 8 (stem_target entry) set }
{
    entries::stem_target(entry) as u16 & set != 0
}

// Tests the pairs in order, and leaves both loops at the first rejected one.
#[tactic(auto, using(crate::proofs::Pairs::search_steps), unfolding(crate::specs::Pairs::meeting))]
fn search(
    stems: &[u32],
    links: &[u32],
    sets: &[u16],
    s: u8,
    target: u8,
    before: usize,
) -> Result<usize, Rejected>
    requires { Few stems.now links.now sets.now before }
    ensures { result ≡ found_of (search (meeting stems.now sets.now) (pairs_of stems.now s target links.now) before) }
{
    let mut tests = before;
    'search: for (u, stem) in stems.iter().enumerate() {
        if !fits(*stem, s, target) {
            continue 'search;
        }
        for (v, link) in links.iter().enumerate() {
            if entries::link_state(*link) != s {
                continue;
            }
            tests += 1;
            if !accepted(*stem, sets[v]) {
                return Err(Rejected {
                    tests,
                    stem: u,
                    period: v,
                });
            }
        }
    }
    Ok(tests)
}

// The first rejected lasso of a period table, or the tests made where all passed: the set of each of its periods at s is found once, and kept in the scratch.
#[tactic(auto, using(crate::proofs::Served::sets_serve))]
pub fn first_rejected(
    stems: &[u32],
    links: &[u32],
    contexts: &[u64],
    scratch: &mut [u16],
    s: u8,
    target: u8,
    before: usize,
) -> Result<usize, Rejected>
    requires few { Few stems.now links.now scratch.old before }
    requires links_in_bounds { 2 * length links.now ≤ length contexts.now }
    ensures { result ≡ found_of (search (accepts stems.now contexts.now) (pairs_of stems.now s target links.now) before) }
{
    put_sets(links, contexts, s, scratch);
    search(stems, links, scratch, s, target, before)
}

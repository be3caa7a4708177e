//! Whether a candidate is covered: a look at entries of its state of A, as many as decide it.
#![tactic(auto)]

ghost use Rattle.std.specs.Prelude.{◌≡◌, cond, not, [], ◌+◌, ◌-◌, ◌*◌, ◌<◌, ◌≤◌, length, get_or, set};
ghost use Rattle.bits.specs.Fields.{link_state};
ghost use Rattle.automata.specs.Loaded.{of_pairs};
ghost use Rattle.growth.specs.Grow.{covered};
ghost use Rattle.growth.specs.Steps.{only};
ghost use Rattle.covering.specs.Entries.{context_in, held};
ghost use Rattle.covering.specs.Masks.{lacking, having, apart, holds, covers, guessed};
ghost use Rattle.covering.specs.Chained.{Chained, to_front};
ghost use Rattle.covering.specs.Sought.{Sought, Told};

use automata::Context;
use bits::entries;

// What the candidate's context lacks of the rows, found once for all entries.
#[tactic(auto, unfolding(crate::specs::Masks::lacking))]
fn lacking(rows: u64, c: Context<u64>) -> Context<u64>
    ensures { of_pairs result ≡ lacking rows (of_pairs c) }
{
    Context {
        reach: rows & !c.reach,
        through: rows & !c.through,
    }
}

// What it has of them.
#[tactic(auto, unfolding(crate::specs::Masks::having))]
fn having(rows: u64, c: Context<u64>) -> Context<u64>
    ensures { of_pairs result ≡ having rows (of_pairs c) }
{
    Context {
        reach: rows & c.reach,
        through: rows & c.through,
    }
}

// Whether the context at i has nothing of what is lacking: then it is contained in the candidate's on the rows.
#[tactic(auto, unfolding(crate::specs::Masks::apart))]
fn apart(contexts: &[u64], i: usize, lacking: Context<u64>) -> bool
    requires { 2 * i + 1 < length contexts.now }
    ensures { result ≡ apart (context_in contexts.now i) (of_pairs lacking) }
{
    contexts[2 * i] & lacking.reach == 0 && contexts[2 * i + 1] & lacking.through == 0
}

// Whether the context at i has all that the candidate's has of the rows: then the candidate's is contained in it on the rows.
#[tactic(auto, unfolding(crate::specs::Masks::holds))]
fn holds(contexts: &[u64], i: usize, having: Context<u64>) -> bool
    requires { 2 * i + 1 < length contexts.now }
    ensures { result ≡ holds (context_in contexts.now i) (of_pairs having) }
{
    having.reach & !contexts[2 * i] == 0 && having.through & !contexts[2 * i + 1] == 0
}

// The entry after the place comes first in the chain of the state, so that those that cover often are looked at first.
#[tactic(auto, unfolding(crate::specs::Chained::to_front))]
fn to_front(chains: &mut [u16], state: usize, place: usize)
    requires { (state < length chains.old) × (place < length chains.old) × (get_or chains.old place 0 + 15 < length chains.old) }
    ensures { chains.new ≡ to_front chains.old state place }
{
    let next = chains[place];
    let after = next as usize + 15;
    chains[place] = chains[after];
    chains[after] = chains[state];
    chains[state] = next;
}

// The place after the entry `next` that the place leads to; or the same place, where that entry leaves the chain, since it has all that the candidate has: the
// place then leads to what is `after` it.
fn pass(
    contexts: &[u64],
    chains: &mut [u16],
    place: usize,
    next: usize,
    after: u16,
    having: Context<u64>,
) -> usize
    requires { (1 ≤ next) × (next ≤ 65535) × (2 * next ≤ length contexts.now) × (place < length chains.old) }
    ensures value { result ≡ cond (holds (context_in contexts.now (next - 1)) (of_pairs having)) place (next + 15) }
    ensures chains_after { chains.new ≡ cond (holds (context_in contexts.now (next - 1)) (of_pairs having))
        (set chains.old place after) chains.old }
{
    if holds(contexts, next - 1, having) {
        chains[place] = after;
        return place;
    }
    next + 15
}

// Whether an entry covers a candidate: the chain of the candidate's state decides it, and the entry that covers comes to its front. An entry that the
// candidate is contained in leaves the chain: the candidate, or the entry that covers it, covers what that entry covers. What comes after an entry is read
// before the entry is tested, so that the next one need not wait for the answer. Which entries, rows and candidate are meant is not read: what is told holds
// of whichever have these contexts, chains and masks.
fn scan(
    contexts: &[u64],
    chains: &mut [u16],
    state: u8,
    missing: Context<u64>,
    present: Context<u64>,
) -> bool
    requires { Sought contexts.now chains.old state (of_pairs missing) (of_pairs present) }
    ensures { (s : Sought contexts.now chains.old state (of_pairs missing) (of_pairs present)) → Told s result chains.new }
{
    let mut place = state as usize;
    let mut next = chains[place] as usize;
    while next != 0 {
        let after = chains[next + 15];
        if apart(contexts, next - 1, missing) {
            to_front(chains, state as usize, place);
            return true;
        }
        place = pass(contexts, chains, place, next, after, present);
        next = after as usize;
    }
    false
}

// Which of so many kinds a candidate is of, by its context and its state: four halves times odd numbers, whose sum fits 64 bits, and of the sum the
// digits from the sixteenth on as a part of the kinds. It should spread most candidates; no answer depends on it.
#[tactic(auto, using(crate::proofs::Guesses::spread_lt, crate::proofs::Guesses::share_fits, crate::proofs::Guesses::share_lt))]
fn kind_of(having: Context<u64>, state: u8, kinds: usize) -> usize
    requires { (state < 16) × (1 ≤ kinds) × (kinds ≤ 65551) }
    ensures { result < kinds }
{
    let reach = (having.reach % 4294967296) * 1013904223 + (having.reach >> 32) * 805459861;
    let through = (having.through % 4294967296) * 927492323 + (having.through >> 32) * 634603861;
    let spread = (reach + through + u64::from(state) * 11400714819323) >> 16;
    ((spread % 4294967296 * kinds as u64) >> 32) as usize
}

// Whether an entry that is guessed, by one more than its index, is one of the first n and covers a candidate at the state. What is asked of the entry is one
// question: which part of it fails cannot be foretold, whether all hold mostly can.
#[tactic(auto, unfolding(crate::specs::Masks::guessed))]
fn guessed(
    links: &[u32],
    contexts: &[u64],
    n: usize,
    next: usize,
    state: u8,
    missing: Context<u64>,
) -> bool
    requires { (n ≤ length links.now) × (2 * n ≤ length contexts.now) }
    ensures { result ≡ guessed n links.now contexts.now next state (of_pairs missing) }
{
    if next == 0 || next > n {
        return false;
    }
    let other = u64::from(entries::link_state(links[next - 1]) ^ state);
    let reach = contexts[2 * (next - 1)] & missing.reach;
    let through = contexts[2 * (next - 1) + 1] & missing.through;
    other | reach | through == 0
}

// Whether one of the first n entries covers a candidate. The second half of `chains` has guesses, for each kind of candidate the entry that was found, or is
// to be appended, for the last one: the same contexts come again and again, and then there is nothing to scan.
pub fn covered(
    links: &[u32],
    contexts: &[u64],
    chains: &mut [u16],
    n: usize,
    link: u32,
    c: Context<u64>,
    rows: u64,
) -> bool
    requires roomy { (n ≤ length links.now) × (2 * n ≤ length contexts.now) × (2 * (16 + n) ≤ length chains.old) × (length chains.old ≤ 131102) }
    requires chained { Chained (covers rows) (held n links.now contexts.now) [] chains.old }
    ensures value { result ≡ covered (covers rows) (held n links.now contexts.now) (record { link = link; context = of_pairs c }) }
    ensures chained_after { Chained (covers rows) (held n links.now contexts.now) (only (not result) (record { link = link; context = of_pairs c })) chains.new }
{
    let state = entries::link_state(link);
    let missing = lacking(rows, c);
    let present = having(rows, c);
    let half = chains.len() / 2;
    let place = half + kind_of(present, state, half);
    if guessed(links, contexts, n, chains[place] as usize, state, missing) {
        return true;
    }
    if scan(contexts, chains, state, missing, present) {
        chains[place] = chains[state as usize];
        return true;
    }
    // 65,535 entries are all there can be: no guess is kept for one more.
    chains[place] = ((n + 1) % 65536) as u16;
    false
}

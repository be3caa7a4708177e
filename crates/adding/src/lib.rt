//! What one record says, and what it adds to what the records before it said.
#![tactic(auto)]

ghost use Rattle.std.specs.Prelude.{◌≡◌, ◌+◌, ◌*◌, ◌^◌, ◌<◌, length, IfOk};
ghost use Rattle.bits.specs.Sets.{union};
ghost use Rattle.adding.specs.Bytes.{kind_t};
ghost use Rattle.adding.specs.Steps.{lone_state, record_of, record_at, Sized, initial_step, accepting_step, transition_step, transition_table, step_by, table_by};

use bits::members::Set;

mod reason;

pub use reason::Reason;

// A transition.
#[derive(Clone, Copy)]
pub struct Edge {
    pub source: u8,
    pub letter: u8,
    pub target: u8,
}

// What four bytes say.
#[derive(Clone, Copy)]
pub enum Record {
    Initial(u8),
    Accepting(u8),
    Transition(Edge),
}

// What the records so far say of a head: its start is None until an I names it.
#[derive(Clone, Copy, Default)]
pub struct Draft {
    pub start: Option<u8>,
    pub accepting: u16,
    pub states: u8,
}

// What the bytes of a T say: all three are held to their limits, in any order, since one refusal serves them.
#[tactic(auto, unfolding(crate::specs::Steps::record_of))]
fn transition(source: u8, letter: u8, target: u8, states: u8) -> Result<Record, Reason>
    ensures { result ≡ record_of states kind_t source letter target }
{
    if source >= states || letter >= 16 || target >= states {
        return Err(Reason::PastLimit);
    }
    Ok(Record::Transition(Edge {
        source,
        letter,
        target,
    }))
}

// The state that an I or an F names: the bytes that must be 0 are looked at before it.
#[tactic(auto, unfolding(crate::specs::Steps::lone_state))]
fn lone_state(q: u8, y: u8, z: u8, states: u8) -> Result<u8, Reason>
    ensures { result ≡ lone_state states q y z }
{
    if y != 0 || z != 0 {
        return Err(Reason::ByteNotZero);
    }
    if q >= states {
        return Err(Reason::PastLimit);
    }
    Ok(q)
}

// What four bytes say, by their kind.
#[tactic(auto, unfolding(crate::specs::Steps::record_of))]
fn record_of(kind: u8, a: u8, b: u8, c: u8, states: u8) -> Result<Record, Reason>
    ensures { result ≡ record_of states kind a b c }
{
    match kind {
        b'T' => transition(a, b, c, states),
        b'I' => Ok(Record::Initial(lone_state(a, b, c, states)?)),
        b'F' => Ok(Record::Accepting(lone_state(a, b, c, states)?)),
        _ => Err(Reason::UnknownKind),
    }
}

// What record i of a file says.
pub fn record_at(s: &[u8], i: usize, states: u8) -> Result<Record, Reason>
    requires { 4 * i + 3 < length s.now }
    ensures { result ≡ record_at states s.now i }
{
    let at = 4 * i;
    record_of(s[at], s[at + 1], s[at + 2], s[at + 3], states)
}

// The set with the member q.
#[tactic(auto, unfolding(bits::specs::Bits::weight))]
fn with(set: u16, q: usize) -> u16
    requires { q < 16 }
    ensures { result ≡ union 16 set (2 ^ q) }
{
    set.union(u16::only(q, true))
}

// What an I adds: the start, unless there is one already.
#[tactic(auto, unfolding(crate::specs::Steps::initial_step))]
fn add_initial(draft: Draft, start: u8) -> Result<Draft, Reason>
    requires { start < 16 }
    ensures { result ≡ initial_step draft start }
{
    if draft.start.is_some() {
        return Err(Reason::ThereAlready);
    }
    Ok(Draft {
        start: Some(start),
        states: draft.states.max(start + 1),
        ..draft
    })
}

// What an F adds: a member of the accepting set, unless it is there already.
#[tactic(auto, unfolding(crate::specs::Steps::accepting_step))]
fn add_accepting(draft: Draft, state: u8) -> Result<Draft, Reason>
    requires { state < 16 }
    ensures { result ≡ accepting_step draft state }
{
    let member = state as usize;
    if draft.accepting.has(member) {
        return Err(Reason::ThereAlready);
    }
    Ok(Draft {
        accepting: with(draft.accepting, member),
        states: draft.states.max(state + 1),
        ..draft
    })
}

// What a T adds: a member of its cell, unless it is there already; then the table stays as it is.
#[tactic(auto, unfolding(crate::specs::Steps::transition_step, crate::specs::Steps::transition_table, crate::specs::Steps::cell_with, automata::specs::Loaded::cell))]
fn add_transition(table: &mut [[u16; 16]; 16], draft: Draft, e: Edge) -> Result<Draft, Reason>
    requires { (e.source < 16) × (e.letter < 16) × (e.target < 16) }
    ensures step { result ≡ transition_step table.old draft e }
    ensures table { table.new ≡ transition_table table.old e }
{
    let x = e.letter as usize;
    let p = e.source as usize;
    let q = e.target as usize;
    let old = table[x][p];
    if old.has(q) {
        return Err(Reason::ThereAlready);
    }
    table[x][p] = with(old, q);
    Ok(Draft {
        states: draft.states.max(e.source.max(e.target) + 1),
        ..draft
    })
}

// What a record adds, by its kind. One that is wrong by itself is refused so, and adds nothing.
pub fn add(
    table: &mut [[u16; 16]; 16],
    draft: Draft,
    said: Result<Record, Reason>,
) -> Result<Draft, Reason>
    requires { IfOk said Sized }
    ensures step { result ≡ step_by table.old draft said }
    ensures table { table.new ≡ table_by table.old said }
{
    match said? {
        Record::Initial(q) => add_initial(draft, q),
        Record::Accepting(q) => add_accepting(draft, q),
        Record::Transition(e) => add_transition(table, draft, e),
    }
}

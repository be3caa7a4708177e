//! Record files: read in one pass to a loaded automaton, or refused at the first fault.
#![tactic(auto)]

ghost use Rattle.std.specs.Prelude.{[], ◌≡◌, ◌+◌, ◌*◌, ◌<◌, ◌≤◌, length, take, drop, Some};
ghost use Rattle.adding.specs.Steps.{record_at, step_by, table_by};
ghost use Rattle.records.specs.Spelled.{table_of};
ghost use Rattle.records.specs.Faults.{placed, good_records, judged, refusal_of};
ghost use Rattle.records.specs.Narrow.{narrow_row, narrow};
ghost use Rattle.records.specs.Text.{refusal_text};
ghost use Rattle.records.specs.BadRecord.{file_of, bad_file, bad_start, bad_record};

use adding::{Draft, Reason};
use automata::Head;
use std::fmt;

// A refusal as document 01 tells it: why, which file, word or table it is about, and its place there. `which` stays a number: `refusal_of` and `bad_record` take
// any, and the host gets it as it is.
#[derive(Clone, Copy, PartialEq, Eq, Debug)]
pub struct Refusal {
    pub reason: Reason,
    pub which: u8,
    pub place: usize,
}

impl fmt::Display for Refusal {
    ghost output = { λ refusal. Some (refusal_text refusal) };

    fn fmt<W: fmt::Write>(&self, f: &mut fmt::Formatter<W>) -> fmt::Result {
        write!(f, "{} {} {}", self.reason.number(), self.which, self.place)
    }
}

// The first fault of a file, and its place there.
#[derive(Clone, Copy, PartialEq, Eq, Debug)]
pub struct Fault {
    pub reason: Reason,
    pub place: usize,
}

// The answer for the file of that number: a fault tells which file it is in.
pub fn refusal_of(which: u8, file: Result<Head, Fault>) -> Result<Head, Refusal>
    ensures { result ≡ refusal_of which file }
{
    file.map_err(|fault| Refusal {
        reason: fault.reason,
        which,
        place: fault.place,
    })
}

// Judges record i and adds it to what the records before it made; a refusal gets the record's place.
#[tactic(auto, unfolding(adding::specs::Steps::record_of, adding::specs::Steps::lone_state))]
fn read_record(
    s: &[u8],
    i: usize,
    states: u8,
    table: &mut [[u16; 16]; 16],
    draft: Draft,
) -> Result<Draft, Fault>
    requires { (4 * i + 3 < length s.now) × (states ≤ 16) }
    ensures step { result ≡ placed i (step_by table.old draft (record_at states s.now i)) }
    ensures table { table.new ≡ table_by table.old (record_at states s.now i) }
{
    let said = adding::record_at(s, i, states);
    adding::add(table, draft, said).map_err(|reason| Fault {
        reason,
        place: 4 * i,
    })
}

// Reads a file whose states are below `states` into a table and a head, or answers its first fault: 1 before any record is looked at, then record by record,
// each judged and added before the next, then 6. After a refusal the table holds the records before the fault.
#[tactic(auto, using(crate::proofs::Reading::reading), unfolding(crate::specs::Faults::judged, crate::specs::Faults::good_records, crate::specs::Faults::head_of, crate::proofs::Turn::draft_in))]
pub fn read(s: &[u8], states: u8, table: &mut [[u16; 16]; 16]) -> Result<Head, Fault>
    requires { states ≤ 16 }
    ensures answer { result ≡ judged states s.now }
    ensures table { table.new ≡ table_of s.now (good_records states s.now) }
{
    *table = [[0u16; 16]; 16];
    let n = s.len();
    let count = n / 4;
    if n % 4 != 0 {
        return Err(Fault {
            reason: Reason::BrokenLength,
            place: 4 * count,
        });
    }
    let mut draft = Draft::default();
    for i in 0..count {
        draft = read_record(s, i, states, table, draft)?;
    }
    let start = draft.start.ok_or(Fault {
        reason: Reason::NoInitialState,
        place: n,
    })?;
    Ok(Head {
        start,
        accepting: draft.accepting,
        states: draft.states,
    })
}

// The first eight sets of the row of letter x, as bytes: each loses what is above its eight members.
#[tactic(auto, using(bits::proofs::Values::filled_none, bits::proofs::Values::filled_more, crate::proofs::Table::narrow_row_filled), unfolding(crate::specs::Narrow::narrow_cell, automata::specs::Loaded::cell))]
fn narrowed_row(table: &[[u16; 16]; 16], x: usize) -> [u8; 8]
    requires { x < 16 }
    ensures { result ≡ narrow_row table.now x }
{
    let mut row = [0u8; 8];
    for (p, set) in row.iter_mut().enumerate() {
        *set = (table[x][p] & 255) as u8;
    }
    row
}

// The table of an automaton of eight states: each row narrowed.
#[tactic(auto, using(bits::proofs::Values::filled_none, bits::proofs::Values::filled_more, crate::proofs::Table::narrow_filled))]
pub fn narrowed(table: &[[u16; 16]; 16]) -> [[u8; 8]; 16]
    ensures { result ≡ narrow table.now }
{
    let mut rows = [[0u8; 8]; 16];
    for (x, row) in rows.iter_mut().enumerate() {
        *row = narrowed_row(table, x);
    }
    rows
}

// Four bytes of a file from a place on, or as many as remain.
#[tactic(auto, using(std::proofs::lemmas::List::take_min))]
fn four_at(file: &[u8], place: usize) -> &[u8]
    requires { place ≤ length file.now }
    ensures contents { result.now ≡ take 4 (drop place file.now) }
    ensures block { result.ref_ptr.0 ≡ file.entry.ref_ptr.0 }
    ensures offset { result.ref_ptr.1 ≡ file.entry.ref_ptr.1 + place }
{
    let end = (place + 4).min(file.len());
    &file[place..end]
}

// The bad record itself: a part of the file of that number, or the empty part at the start of a. Its bytes, and its place in memory.
#[tactic(auto, unfolding(crate::specs::BadRecord::in_file, crate::specs::BadRecord::bad_file, crate::specs::BadRecord::bad_start, crate::specs::BadRecord::bad_record))]
pub fn bad_record<'a>(a: &'a [u8], b: &'a [u8], which: u8, place: usize) -> &'a [u8]
    ensures contents { result.now ≡ bad_record which place a.now b.now }
    ensures block { result.ref_ptr.0 ≡ file_of (bad_file which place a.now b.now) a.entry.ref_ptr.0 b.entry.ref_ptr.0 }
    ensures offset { result.ref_ptr.1 ≡ file_of (bad_file which place a.now b.now) a.entry.ref_ptr.1 b.entry.ref_ptr.1 + bad_start which place a.now b.now }
{
    match which {
        0 if place <= a.len() => four_at(a, place),
        1 if place <= b.len() => four_at(b, place),
        _ => &a[..0],
    }
}

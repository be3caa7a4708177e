//! The word of an entry, of the stems or of the links, read along its parents and stored back to front.
#![tactic(auto)]

ghost use Rattle.std.specs.Prelude.{◌≡◌, ◌-◌, ◌<◌, ◌≤◌, Bool, true, false, length, set};
ghost use Rattle.walk.specs.Words.{top_of, parent_of, letter_of, word_of};
ghost use Rattle.spelling.specs.Written.{Backward, Written};

use bits::entries;

// How a word is read off the entries of a table.
pub trait Entry {
    // The entries are period links, and else stem entries.
    ghost links: { Bool };

    // The parent at which a word begins.
    fn top() -> usize
        ensures { result ≡ top_of links };

    // The parent of an entry.
    fn parent(entry: u32) -> usize
        ensures { result ≡ parent_of links entry };

    // The last letter of an entry's word.
    fn letter(entry: u32) -> u8
        ensures { result ≡ letter_of links entry };
}

// An entry of U or W.
pub struct StemEntry;

impl Entry for StemEntry {
    ghost links = { false };

    fn top() -> usize {
        0
    }

    fn parent(entry: u32) -> usize {
        usize::from(entries::stem_parent(entry))
    }

    fn letter(entry: u32) -> u8 {
        entries::stem_letter(entry)
    }
}

// An entry of a period table.
pub struct PeriodLink;

impl Entry for PeriodLink {
    ghost links = { true };

    fn top() -> usize {
        65535
    }

    fn parent(entry: u32) -> usize {
        usize::from(entries::link_parent(entry))
    }

    fn letter(entry: u32) -> u8 {
        entries::link_letter(entry)
    }
}

// The letters of an entry's word: one for each step up to the top. It follows parents: no `for` goes over them.
#[tactic(auto, using(crate::proofs::Chain::step, crate::proofs::Chain::one_fewer, crate::proofs::Chain::spelled_length))]
fn letters<E: Entry>(table: &[u32], entry: usize) -> usize
    requires backward { Backward E.links table.now }
    requires in_bounds { entry < length table.now }
    ensures { result ≡ length (word_of E.links table.now entry) }
{
    let end = E::top();
    let mut i = entry;
    let mut n = 0;
    while i != end {
        i = E::parent(table[i]);
        n += 1;
    }
    n
}

// A letter into the last place of a part.
fn put_last(part: &mut [u8], x: u8)
    requires { 1 ≤ length part.old }
    ensures { part.new ≡ set part.old (length part.old - 1) x }
{
    let n = part.len();
    part[n - 1] = x;
}

// Writes the word of an entry into the first bytes of an output: its last letter goes into the last free place of their prefix, and so on up the
// parents. The answer is the number of its letters.
#[tactic(auto, using(crate::proofs::Chain::step, crate::proofs::Chain::one_left, crate::proofs::Back::last_low, crate::proofs::Back::last_part, crate::proofs::Chain::spelled_length))]
pub fn write<E: Entry>(table: &[u32], entry: usize, out: &mut [u8]) -> usize
    requires backward { Backward E.links table.now }
    requires in_bounds { entry < length table.now }
    requires table_in_bounds { length table.now ≤ length out.old }
    ensures { Written (word_of E.links table.now entry) result out.old out.new }
{
    let n = letters::<E>(table, entry);
    let end = E::top();
    let prefix = &mut out[0..n];
    let mut i = entry;
    let mut free = n;
    while i != end {
        let e = table[i];
        let last = free - 1;
        put_last(&mut prefix[last..free], E::letter(e));
        i = E::parent(e);
        free = last;
    }
    n
}

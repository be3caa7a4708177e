//! Which candidates are covered, by one look at a bit: one for each state of A and each target, at 256 times the state and the target, eight in a byte.
ghost use Rattle.std.specs.Prelude.{◌≡◌, ◌+◌, ◌%◌, ◌<◌, ◌≤◌, length};
ghost use Rattle.bits.specs.Bits.{bit, set_of};
ghost use Rattle.stems.specs.Stems.{target_covers};
ghost use Rattle.stems.specs.Flags.{flag_at, Raised};

use bits::members::Set;

// Does the target of an entry cover that of a candidate? A flag, asked here alone: as a type it would be named all the way down to here.
#[tactic(auto, unfolding(crate::specs::Stems::target_covers))]
fn covers(old: u8, new: u8, largest: bool) -> bool
    ensures { result ≡ target_covers largest old new }
{
    if largest {
        bits::members::within(new, old)
    } else {
        bits::members::within(old, new)
    }
}

// Of the eight targets from `first` on, those that the target `old` covers.
#[tactic(auto, using(automata::proofs::Turning::gathered_none, automata::proofs::Turning::gathered_more))]
fn covered_from(old: u8, first: u8, largest: bool) -> u8
    requires { first ≤ 248 }
    ensures { result ≡ set_of (λ j. target_covers largest old (first + j)) 8 }
{
    let mut out = u8::none();
    for j in 0..8 {
        out = out.union(u8::only(usize::from(j), covers(old, first + j, largest)));
    }
    out
}

// Where the flag of an entry stands: the bits of its state and its target.
fn place(entry: u32) -> usize
    ensures { result ≡ entry % 4096 }
{
    (entry & 0xfff) as usize
}

// One of eight flags.
fn flag(eight: u8, q: usize) -> bool
    requires { q < 8 }
    ensures { result ≡ bit eight q }
{
    eight.has(q)
}

// Is a candidate covered? Its flag says it.
pub fn look(marks: &[u8; 512], entry: u32) -> bool
    ensures { result ≡ flag_at marks.now (entry % 4096) }
{
    let at = place(entry);
    flag(marks[at / 8], at % 8)
}

// Raises the bits of all that the entry covers: of the targets at its state, eight at a time.
pub fn mark(marks: &mut [u8; 512], entry: u32, largest: bool)
    requires { length marks.old ≡ 512 }
    ensures { Raised largest entry marks.old marks.new }
{
    let state = usize::from(bits::entries::stem_state(entry));
    let target = bits::entries::stem_target(entry);
    for g in 0..32u8 {
        let at = 32 * state + usize::from(g);
        marks[at] |= covered_from(target, 8 * g, largest);
    }
}

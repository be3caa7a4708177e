//! Tables of sets, by letter and then by state, and a word's context made longer by a letter.
ghost use Rattle.std.specs.Prelude.{◌≡◌, ℕ, ◌<◌, get_or};
ghost use Rattle.bits.specs.Pairs.{row};
ghost use Rattle.acceptance.specs.Contexts.{idle, longer};
ghost use Rattle.automata.specs.Loaded.{cell, aut_of, listed, of};

use crate::contexts::moved_rows;
use crate::relations::Relation;
use crate::{Automaton, Context};
use bits::members::Set;

// A table of sets for sixteen letters: `cell` is the set at a letter and a state.
pub trait Table {
    type Pairs: Relation;

    ghost cell: { Self → ℕ → ℕ → ℕ };

    // The pairs of a letter: row p is the set at the letter and p.
    fn steps(&self, letter: usize) -> Self::Pairs
        requires { letter < 16 }
        ensures { (p : ℕ) → p < Self.Pairs.Row.WIDTH → row Self.Pairs.Row.WIDTH (Self.Pairs.packed result) p ≡ cell self.now letter p };
}

// Eight sets in one number, set p in its byte p.
#[inline]
fn packed(sets: [u8; 8]) -> u64
    ensures { (p : ℕ) → p < 8 → row 8 result p ≡ get_or sets p 0 }
{
    u64::from_le_bytes(sets)
}

// Sixteen sets, as they stand.
#[inline]
fn as_rows(sets: [u16; 16]) -> [u16; 16]
    ensures { (p : ℕ) → p < 16 → row 16 (listed 16 result) p ≡ get_or sets p 0 }
{
    sets
}

#[tactic(auto, unfolding(crate::specs::Loaded::cell))]
impl Table for [[u8; 8]; 16] {
    type Pairs = u64;

    ghost cell = { cell };

    #[inline]
    fn steps(&self, letter: usize) -> u64 {
        packed(self[letter])
    }
}

#[tactic(auto, unfolding(crate::specs::Loaded::cell))]
impl Table for [[u16; 16]; 16] {
    type Pairs = [u16; 16];

    ghost cell = { cell };

    #[inline]
    fn steps(&self, letter: usize) -> [u16; 16] {
        as_rows(self[letter])
    }
}

impl<T: Table> Automaton<T> {
    // The context of the empty word.
    pub fn idle(&self) -> Context<T::Pairs>
        ensures { of T.Pairs.packed result ≡ idle T.Pairs.Row.WIDTH (aut_of (T.cell self.now.table) self.now.head).final }
    {
        Context::idle(<T::Pairs as Relation>::Row::below(self.head.accepting))
    }

    // The context of a word longer by a letter: both parts moved row by row, and what is entered and accepts has met acceptance.
    // Where nothing has met it before, no row is moved; an empty row among others takes no step of its own, since all are moved at once.
    pub fn longer(&self, c: Context<T::Pairs>, letter: usize) -> Context<T::Pairs>
        requires { letter < 16 }
        ensures { of T.Pairs.packed result ≡ longer T.Pairs.Row.WIDTH (aut_of (T.cell self.now.table) self.now.head) (of T.Pairs.packed c) letter }
    {
        let steps = self.table.steps(letter);
        let reach = moved_rows(steps, c.reach);
        let before = if c.through.is_none() {
            T::Pairs::none()
        } else {
            moved_rows(steps, c.through)
        };
        let accepting = <T::Pairs as Relation>::Row::below(self.head.accepting);
        Context {
            reach,
            through: before.met(reach, accepting),
        }
    }
}

//! The stem tables U and W (document 01, "The walk", 1 and 2), grown in a lent table.
#![tactic(auto)]

ghost use Rattle.std.specs.Prelude.{◌≡◌, [], ◌∷◌, ◌^◌, ◌≤◌, ◌<◌, length, get_or};
ghost use Rattle.bits.specs.Fields.{stem_entry};
ghost use Rattle.automata.specs.Loaded.{aut};
ghost use Rattle.stems.specs.Stems.{stem_table};
ghost use Rattle.stems.specs.Held.{Held};
ghost use Rattle.stems.specs.Candidates.{move_of};

use automata::{Model, Rule};
use bits::members;
use bits::members::Set;
use growing::Growing;
use growth::Full;

mod growing;
mod marks;

// One letter from the entry at index `parent`: its successor states, and the target that it is moved to.
#[derive(Clone, Copy)]
struct Move {
    successors: u16,
    target: u8,
    letter: u8,
    parent: u16,
}

// The entry at index i by the letter x.
#[tactic(auto, unfolding(crate::specs::Candidates::move_of, acceptance::specs::Contexts::moved_by, automata::specs::Loaded::aut_of, automata::specs::Loaded::cell, bits::specs::Sets::by_sets))]
fn step(model: &Model, rule: &Rule, i: u16, entry: u32, x: u8) -> Move
    requires { x < 16 }
    ensures { result ≡ move_of model.now.table rule.now.table i entry x }
{
    let letter = usize::from(x);
    let state = usize::from(bits::entries::stem_state(entry));
    let target = bits::entries::stem_target(entry);
    Move {
        successors: model.table[letter][state],
        target: members::moved(&rule.table[letter], target),
        letter: x,
        parent: i,
    }
}

// The root: a state of A, the empty word, one state of B.
fn root(state: u8, start: u8) -> u32
    requires { (state < 16) × (start < 8) }
    ensures { result ≡ stem_entry (2 ^ start) state 0 0 }
{
    bits::entries::stem_entry(1u8 << start, state, 0, 0)
}

// U, or W where `largest`, in the first elements of the lent table. It grows from its root; at first no flag is up.
pub fn grow(
    table: &mut [u32],
    room: usize,
    model: &Model,
    rule: &Rule,
    largest: bool,
) -> Result<usize, Full>
    requires room_bound { (room ≤ 4096) × (room ≤ length table.old) }
    requires start_bound { (model.now.head.start < 16) × (rule.now.head.start < 8) }
    ensures { Held (stem_table (aut model.now) (aut rule.now) largest room) table.old table.new result }
{
    let mut growing = Growing {
        table,
        marks: [0; 512],
        room,
        n: 0,
        largest,
    };
    growing.offer(root(model.head.start, rule.head.start))?;
    growing.take_all(model, rule)?;
    Ok(growing.n)
}

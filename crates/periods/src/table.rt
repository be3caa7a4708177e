//! Candidates offered to the period table: those of a letter, of an entry, of all entries.
ghost use Rattle.std.specs.Prelude.{◌≡◌, ◌+◌, ◌*◌, ◌<◌, length, get_or};
ghost use Rattle.bits.specs.Fields.{link_state};
// `table` is a name of this file too.
ghost use Rattle.growth.specs.Grow.{offer, table as outcome};
ghost use Rattle.automata.specs.Loaded.{aut, steps_of, of_pairs};
ghost use Rattle.covering.specs.Entries.{context_in};
ghost use Rattle.covering.specs.Masks.{covers};
ghost use Rattle.periods.specs.Periods.{word_next, period_next};
ghost use Rattle.offering.specs.Growing.{entries_of, Roomy, Ready, Grows};
ghost use Rattle.periods.specs.Candidates.{move_of, at_letter};

use automata::{Context, Model, Rule};
use bits::entries;
use growth::Full;
use offering::Table;

// A word that is made longer: the state of A that it leads to, its index in the table, and its context.
#[derive(Clone, Copy)]
pub struct Word {
    pub state: u8,
    pub parent: u16,
    pub context: Context<u64>,
}

// A word longer by one letter: the states that it leads to, the letter, the shorter word's index, and its context.
#[derive(Clone, Copy)]
struct Move {
    successors: u16,
    letter: u8,
    parent: u16,
    context: Context<u64>,
}

// The candidates by one letter, successors rising; their context is the same. The lowest successor is taken out each time, until none is left: nothing is
// spent on a state that is none. The rest has 32 bits: a number of 16 is written into a register that keeps its upper half, and so each step would wait for the
// entry that was looked at before.
fn by_letter(table: &mut Table, by: Move) -> Result<(), Full>
    requires letter_bound { by.letter < 16 }
    requires ready { Ready table.old }
    ensures { Grows (offer (covers table.old.rows) table.old.room (entries_of table.old) (at_letter by)) result table.old table.new }
{
    let mut rest = u32::from(by.successors);
    while rest != 0 {
        let q = rest.trailing_zeros();
        table.offer(
            entries::period_link(q as u8, by.letter, by.parent),
            by.context,
        )?;
        rest &= rest - 1;
    }
    Ok(())
}

// A word by one letter: its context is made longer once for all successors.
#[tactic(auto, unfolding(crate::specs::Candidates::move_of, automata::specs::Loaded::cell))]
fn step(model: &Model, rule: &Rule, word: Word, x: u8) -> Move
    requires { (word.state < 16) × (x < 16) }
    ensures { result ≡ move_of model.now.table (aut rule.now) word x }
{
    Move {
        successors: model.table[x as usize][word.state as usize],
        letter: x,
        parent: word.parent,
        context: rule.longer(word.context, x as usize),
    }
}

// The candidates of a word, letters rising; those that lead nowhere are passed over.
#[tactic(auto, unfolding(crate::specs::Candidates::move_of))]
fn expand(table: &mut Table, model: &Model, rule: &Rule, word: Word) -> Result<(), Full>
    requires state_bound { word.state < 16 }
    requires ready { Ready table.old }
    ensures { Grows (offer (covers table.old.rows) table.old.room (entries_of table.old)
        (word_next (steps_of model.now.table) (aut rule.now) word.state word.parent (of_pairs word.context))) result table.old table.new }
{
    for x in 0..16u8 {
        if model.table[x as usize][word.state as usize] == 0 {
            continue;
        }
        by_letter(table, step(model, rule, word, x))?;
    }
    Ok(())
}

// The word of the entry at i.
fn word_at(table: &Table, i: usize) -> Word
    requires { Roomy table.now × (i < table.now.n) }
    ensures { (result.state ≡ link_state (get_or table.now.links.now i 0)) × (result.parent ≡ i) × (of_pairs result.context ≡ context_in table.now.contexts.now i) }
{
    Word {
        state: entries::link_state(table.links[i]),
        parent: i as u16,
        context: Context {
            reach: table.contexts[2 * i],
            through: table.contexts[2 * i + 1],
        },
    }
}

// The table that grows from the candidates of a first word: these, and then those of the entries in order, of those that are appended meanwhile too,
// until none is left. No more than `room` are ever there. The end moves meanwhile: no `for` has it.
pub fn build(table: &mut Table, model: &Model, rule: &Rule, first: Word) -> Result<(), Full>
    requires state_bound { first.state < 16 }
    requires ready { Ready table.old }
    requires none { table.old.n ≡ 0 }
    ensures { Grows (outcome (covers table.old.rows) (period_next (steps_of model.now.table) (aut rule.now)) table.old.room
        (word_next (steps_of model.now.table) (aut rule.now) first.state first.parent (of_pairs first.context))) result table.old table.new }
{
    let mut word = first;
    let mut i = 0;
    loop {
        expand(table, model, rule, word)?;
        if i >= table.n {
            return Ok(());
        }
        word = word_at(table, i);
        i += 1;
    }
}

//! The period table of one accepting state of the model, compared on the rows of one target.
#![tactic(auto)]

ghost use Rattle.std.specs.Prelude.{◌≡◌, true, ◌+◌, ◌*◌, ◌<◌, ◌≤◌, length};
ghost use Rattle.bits.specs.Bits.{bit};
ghost use Rattle.automata.specs.Loaded.{aut};
ghost use Rattle.periods.specs.Periods.{period_table};
ghost use Rattle.offering.specs.Lent.{Leaves};

use automata::{Model, Rule};
use bits::rows;
use growth::Full;

mod table;

// The table of an accepting state, compared on the rows of the target, from the one-letter words on: an accepting state opens a period by each of its
// transitions. The entries are taken in order, and none is left when the last one has been. What `chains` holds at entry and at exit is nobody's
// business: it serves the look for covering entries, and what an earlier call left there does no harm.
pub fn grow(
    links: &mut [u32],
    contexts: &mut [u64],
    chains: &mut [u16],
    room: usize,
    state: u8,
    target: u8,
    model: &Model,
    rule: &Rule,
) -> Result<usize, Full>
    requires room_bound { (room ≤ 65535) × (room ≤ length links.old) × (2 * room ≤ length contexts.old) × (2 * (16 + room) ≤ length chains.old) × (length chains.old ≤ 131102) }
    requires state_bound { (state < 16) × (bit model.now.head.accepting state ≡ true) }
    ensures { Leaves (period_table (aut model.now) (aut rule.now) state target room) result
        links.old links.new contexts.old contexts.new }
{
    let mut table = offering::Table::new(links, contexts, chains, room, rows::rows(target));
    let word = table::Word {
        state,
        parent: 65535,
        context: rule.idle(),
    };
    table::build(&mut table, model, rule, word)?;
    Ok(table.n)
}

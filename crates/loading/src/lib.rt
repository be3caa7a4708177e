//! What comes before the walk: both files are read and judged, and then the room and what is lent.
#![tactic(auto)]

ghost use Rattle.std.specs.Prelude.{◌≡◌};
ghost use Rattle.loading.specs.Outset.{long_enough, outset_of, Loads};

use adding::Reason;
use automata::Head;
use records::{Fault, Refusal};
use search::Room;

// How many elements each of the six lent buffers has.
#[derive(Clone, Copy)]
pub struct Sizes {
    pub smallest: usize,
    pub largest: usize,
    pub links: usize,
    pub contexts: usize,
    pub stem: usize,
    pub period: usize,
}

// What comes first: the model's refusal, the rule's, 7 where too little is lent, and else the heads of the two automata.
#[tactic(auto, unfolding(crate::specs::Outset::outset_of))]
fn judge(
    model: Result<Head, Fault>,
    rule: Result<Head, Fault>,
    enough: bool,
) -> Result<(Head, Head), Refusal>
    ensures { result ≡ outset_of model rule enough }
{
    let model_head = records::refusal_of(0, model)?;
    let rule_head = records::refusal_of(1, rule)?;
    if !enough {
        return Err(Refusal {
            reason: Reason::TooLittleLent,
            which: 0,
            place: 0,
        });
    }
    Ok((model_head, rule_head))
}

// The room is in range, and the lent buffers are long enough for it.
#[tactic(auto, unfolding(crate::specs::Outset::long_enough))]
fn enough(room: Room, sizes: Sizes) -> bool
    ensures { result ≡ long_enough room.stems room.periods sizes }
{
    matches!(room.stems, 1..=4096)
        && matches!(room.periods, 1..=65535)
        && room.stems <= sizes.smallest
        && room.stems <= sizes.largest
        && room.periods <= sizes.links
        && 2 * room.periods <= sizes.contexts
        && room.stems <= sizes.stem
        && room.periods <= sizes.period
}

// Reads both files into tables, and judges them and what is lent.
pub fn load(
    model: &[u8],
    rule: &[u8],
    room: Room,
    sizes: Sizes,
    model_table: &mut [[u16; 16]; 16],
    rule_table: &mut [[u8; 8]; 16],
) -> Result<(Head, Head), Refusal>
    ensures { Loads model.now rule.now (long_enough room.stems room.periods sizes) result model_table.new rule_table.new }
{
    let model_file = records::read(model, 16, model_table);
    let mut wide = [[0u16; 16]; 16];
    let rule_file = records::read(rule, 8, &mut wide);
    *rule_table = records::narrowed(&wide);
    judge(model_file, rule_file, enough(room, sizes))
}

//! What a host in C calls.
#![tactic(auto)]

ghost use Rattle.std.specs.Prelude.{◌≡◌};
ghost use Rattle.inclusion.specs.Decided.{number_of};
ghost use Rattle.membership.specs.Test.{host_number};
ghost use Rattle.host.specs.Lasso.{LassoRight};
ghost use Rattle.host.specs.Decide.{room_with, row_left, RowDecided};

use inclusion::Answer;
use records::Refusal;
use search::{Lent, Room};

// Document 01's number of an answer of the lasso test.
fn number_of(tested: Result<bool, Refusal>) -> u32
    ensures { result ≡ host_number tested }
{
    match tested {
        Ok(accepted) => u32::from(accepted),
        Err(refusal) => 100 + u32::from(refusal.reason.number()),
    }
}

// The lasso test: 0 rejected, 1 accepted, or 100 plus the refusal.
#[unsafe(no_mangle)]
#[tactic(auto, using(crate::proofs::Numbered::lasso_right))]
pub extern "C" fn wickerbell_lasso(records: &[u8], stem: &[u8], period: &[u8]) -> u32
    ensures { LassoRight records.now stem.now period.now result }
{
    number_of(membership::test(records, stem, period))
}

// Document 01's number of an answer of the entry point.
#[tactic(auto, unfolding(inclusion::specs::Answers::numbers_of))]
fn number_in(answer: Answer) -> u32
    ensures { result ≡ number_of answer }
{
    match answer {
        Answer::Included(_) | Answer::NotIncluded(_, _) => 0,
        Answer::Refused(refusal, _) => u32::from(refusal.reason.number()),
    }
}

// S, or 0, which is out of range, where the row cannot hold an answer.
#[tactic(auto, unfolding(crate::specs::Decide::room_with))]
fn room_with(row: &[u64], stem_room: u64) -> usize
    ensures { result ≡ room_with row.now stem_room }
{
    if row.len() < 9 {
        return 0;
    }
    stem_room as usize
}

// The nine numbers of an answer, where the row can hold them.
#[tactic(auto, using(crate::proofs::Row::nine), unfolding(crate::specs::Decide::row_left, growth::specs::Lent::over))]
fn put_row(row: &mut [u64], answer: Answer)
    ensures { row.new ≡ row_left row.old answer }
{
    if row.len() < 9 {
        return;
    }
    row[..9].copy_from_slice(&inclusion::numbers(answer));
}

// The entry point: the answer's number is returned, and the whole answer is put into the row. A row that is too short counts as one more lent table
// that is, and an S that is out of range says just that: 1 to 6 come first, then 7, and nothing is changed.
#[unsafe(no_mangle)]
pub extern "C" fn wickerbell_decide(
    model: &[u8],
    rule: &[u8],
    stem_room: u64,
    period_room: u64,
    smallest: &mut [u32],
    largest: &mut [u32],
    links: &mut [u32],
    contexts: &mut [u64],
    stem: &mut [u8],
    period: &mut [u8],
    row: &mut [u64],
) -> u32
    ensures { RowDecided model.now rule.now stem_room period_room
        (record { smallest = smallest.old; largest = largest.old; links = links.old; contexts = contexts.old; stem = stem.old; period = period.old })
        row.old result
        (record { smallest = smallest.new; largest = largest.new; links = links.new; contexts = contexts.new; stem = stem.new; period = period.new })
        row.new }
{
    let mut lent = Lent {
        smallest,
        largest,
        links,
        contexts,
        stem,
        period,
    };
    let room = Room {
        stems: room_with(row, stem_room),
        periods: period_room as usize,
    };
    let answer = inclusion::decide(model, rule, room, &mut lent);
    put_row(row, answer);
    number_in(answer)
}

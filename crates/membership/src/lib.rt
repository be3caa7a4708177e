//! The lasso test: is a lasso, given as a stem and a period, accepted by the automaton of a record file?
#![tactic(auto)]

ghost use Rattle.std.specs.Prelude.{◌≡◌, ◌<◌, All};
ghost use Rattle.acceptance.specs.Contexts.{target, context_of};
ghost use Rattle.automata.specs.Loaded.{aut, of_rows};
ghost use Rattle.membership.specs.Checks.{bad_letter, checked};
ghost use Rattle.membership.specs.Test.{verdict, tested_on};
ghost use Rattle.membership.specs.Meaning.{TestRight};

use adding::Reason;
use automata::{Automaton, Context, Head, Model};
use bits::members;
use records::Refusal;

// The first letter of the word that is not below 16.
fn bad_letter(word: &[u8]) -> Option<usize>
    ensures { result ≡ bad_letter word.now }
{
    word.iter().position(|x| *x >= 16)
}

// Refusal 11, where a letter is not below 16: the word is the stem, 0, or the period, 1.
#[tactic(auto, unfolding(crate::specs::Checks::checked))]
fn check(which: u8, word: &[u8]) -> Result<(), Refusal>
    ensures { result ≡ checked which word.now }
{
    match bad_letter(word) {
        None => Ok(()),
        Some(place) => Err(Refusal {
            reason: Reason::LetterPastLimit,
            which,
            place,
        }),
    }
}

// The states that the stem leads to from the initial state: each of its letters moves the set once.
#[tactic(auto, using(crate::proofs::Walked::moved_begin, crate::proofs::Walked::moved_turn, crate::proofs::Walked::moved_end))]
fn target_of(model: &Model, stem: &[u8]) -> u16
    requires { (model.now.head.start < 16) × All (λ x. x < 16) stem.now }
    ensures { result ≡ target 16 (aut model.now) stem.now }
{
    let mut set = 1u16 << model.head.start;
    for x in stem {
        set = members::moved(&model.table[*x as usize], set);
    }
    set
}

// The context of the period: that of the empty word, made longer by each of its letters.
#[tactic(auto, using(crate::proofs::Walked::context_begin, crate::proofs::Walked::context_turn, crate::proofs::Walked::context_end))]
fn context_of(model: &Model, period: &[u8]) -> Context<[u16; 16]>
    requires { All (λ x. x < 16) period.now }
    ensures { of_rows result ≡ context_of 16 (aut model.now) period.now }
{
    let mut context = model.idle();
    for x in period {
        context = model.longer(context, *x as usize);
    }
    context
}

// The verdict for words of good letters: accepted if the stem leads to a state from which the period, repeated for ever, is.
#[tactic(auto, using(bits::proofs::Sets::meets_test), unfolding(crate::specs::Test::verdict))]
fn decide(model: &Model, stem: &[u8], period: &[u8]) -> bool
    requires { (model.now.head.start < 16) × All (λ x. x < 16) stem.now × All (λ x. x < 16) period.now }
    ensures { result ≡ verdict (aut model.now) stem.now period.now }
{
    let from = target_of(model, stem);
    let context = context_of(model, period);
    from & context.repeated() != 0
}

// The test in a loaded automaton: 10, then 11 in the stem, then 11 in the period, and else the verdict.
#[tactic(auto, using(crate::proofs::Lettered::checked_all), unfolding(crate::specs::Test::tested_on))]
fn test_words(model: &Model, stem: &[u8], period: &[u8]) -> Result<bool, Refusal>
    requires { model.now.head.start < 16 }
    ensures { result ≡ tested_on (aut model.now) stem.now period.now }
{
    if period.is_empty() {
        return Err(Refusal {
            reason: Reason::EmptyPeriod,
            which: 0,
            place: 0,
        });
    }
    check(0, stem)?;
    check(1, period)?;
    Ok(decide(model, stem, period))
}

// The lasso test of one automaton with A's limits: the records are judged, then the words, and good ones are decided.
#[tactic(auto, using(crate::proofs::File::start_small))]
pub fn test(records: &[u8], stem: &[u8], period: &[u8]) -> Result<bool, Refusal>
    ensures { TestRight records.now stem.now period.now result }
{
    // The table is read where it stays, and nothing of it is copied; until then the head is none.
    let mut model = Automaton {
        table: [[0u16; 16]; 16],
        head: Head {
            start: 0,
            accepting: 0,
            states: 0,
        },
    };
    let file = records::read(records, 16, &mut model.table);
    model.head = records::refusal_of(0, file)?;
    test_words(&model, stem, period)
}

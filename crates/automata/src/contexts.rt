//! Contexts: what a word leads to from each state, the empty word's, and the states from which a period is accepted.
ghost use Rattle.std.specs.Prelude.{◌≡◌, ◌<◌};
ghost use Rattle.bits.specs.Bits.{bit};
ghost use Rattle.acceptance.specs.Contexts.{idle};
ghost use Rattle.automata.specs.Loaded.{of};
ghost use Rattle.automata.specs.Repeated.{moved_rows, via, closure, turning, leading_into, repeated};

use crate::Context;
use crate::relations::Relation;
use bits::members::Set;

// c, each of its rows moved by the step that the pairs of `by` are: one state after the other, for all rows at once.
#[tactic(auto, using(crate::proofs::Moving::state_by_state))]
pub(crate) fn moved_rows<R: Relation>(by: R, c: R) -> R
    ensures { R.packed result ≡ moved_rows R.Row.WIDTH (R.packed by) (R.packed c) }
{
    let mut out = R::none();
    for p in 0..<R::Row as Set>::WIDTH {
        out = out.led_on(c, p, by.row(p));
    }
    out
}

// The pairs of r, and those that two of them make which meet in k: a pair that ends in k is led on along the row of k.
#[tactic(auto, unfolding(crate::specs::Repeated::via))]
fn via<R: Relation>(r: R, k: usize) -> R
    requires { k < R.Row.WIDTH }
    ensures { R.packed result ≡ via R.Row.WIDTH (R.packed r) k }
{
    r.led_on(r, k, r.row(k))
}

// Where pairs of r lead, none or more: each state to itself, then with one state more on the way, after the other.
#[tactic(auto, using(crate::proofs::Closure::paths_more, crate::proofs::Closure::paths_all))]
fn closure<R: Relation>(r: R) -> R
    ensures { R.packed result ≡ closure R.Row.WIDTH (R.packed r) }
{
    let mut out = r.with_itself();
    for k in 0..<R::Row as Set>::WIDTH {
        out = via(out, k);
    }
    out
}

// The states from which a pair of `through` leads to one from which paths lead back: those that a pair and then paths lead to themselves.
#[tactic(auto, using(crate::proofs::Turning::one_by_one))]
fn turning<R: Relation>(paths: R, through: R) -> R::Row
    ensures { R.Row.bits result ≡ turning R.Row.WIDTH (R.packed paths) (R.packed through) }
{
    let around = moved_rows(paths, through);
    let mut out = R::Row::none();
    for p in 0..<R::Row as Set>::WIDTH {
        out = out.union(R::Row::only(p, around.row(p).has(p)));
    }
    out
}

// The states from which paths lead into x: their rows meet x.
#[tactic(auto, using(crate::proofs::Turning::one_by_one))]
fn leading_into<R: Relation>(paths: R, x: R::Row) -> R::Row
    ensures { R.Row.bits result ≡ leading_into R.Row.WIDTH (R.packed paths) (R.Row.bits x) }
{
    let mut out = R::Row::none();
    for q in 0..<R::Row as Set>::WIDTH {
        out = out.union(R::Row::only(q, paths.row(q).meets(x)));
    }
    out
}

impl<R: Relation> Context<R> {
    // The context of the empty word: each state leads to itself, through acceptance where it accepts.
    pub fn idle(accepting: R::Row) -> Context<R>
        ensures { of R.packed result ≡ idle R.Row.WIDTH (bit (R.Row.bits accepting)) }
    {
        let reach = R::none().with_itself();
        Context {
            reach,
            through: R::none().met(reach, accepting),
        }
    }

    // The states from which a period with this context, repeated for ever, is accepted.
    #[tactic(auto, unfolding(crate::specs::Repeated::repeated, crate::specs::Repeated::repeated_by))]
    pub fn repeated(self) -> R::Row
        ensures { R.Row.bits result ≡ repeated R.Row.WIDTH (of R.packed self) }
    {
        let paths = closure(self.reach);
        leading_into(paths, turning(paths, self.through))
    }
}

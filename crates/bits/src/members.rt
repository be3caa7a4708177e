//! Sets of numbers below a width in one word: members, subsets, and sets moved by a step.
ghost use Rattle.std.specs.Prelude.{◌≡◌, ℕ, ◌*◌, ◌^◌, ◌<◌, length};
ghost use Rattle.bits.specs.Bits.{bit, weight, set_of};
ghost use Rattle.bits.specs.Sets.{subset, union, meets, moved, by_sets};

// A set of numbers below WIDTH, its members being the bits of a number.
pub trait Set: Copy {
    const WIDTH: usize;

    ghost WIDTH: { ℕ };

    ghost none: { Self };

    ghost bits: { Self → ℕ };

    // No members.
    fn none() -> Self
        ensures { bits result ≡ 0 };

    // The member q alone where `is` holds, and none where not.
    fn only(q: usize, is: bool) -> Self
        requires { q < WIDTH }
        ensures { bits result ≡ weight is * 2 ^ q };

    // The members of x that are below the width.
    fn below(x: u16) -> Self
        ensures { bits result ≡ set_of (bit x) WIDTH };

    // Is q a member?
    fn has(self, q: usize) -> bool
        requires { q < WIDTH }
        ensures { result ≡ bit (bits self) q };

    // The members of either.
    fn union(self, other: Self) -> Self
        ensures { bits result ≡ union WIDTH (bits self) (bits other) };

    // Is some member a member of both?
    fn meets(self, other: Self) -> bool
        ensures { result ≡ meets WIDTH (bits self) (bits other) };
}

#[tactic(auto, using(crate::proofs::Sets::of_word))]
impl Set for u8 {
    const WIDTH: usize = 8;

    ghost WIDTH = { 8 };

    ghost none = { 0 };

    ghost bits = { λ x. x };

    #[inline]
    fn none() -> u8 {
        0
    }

    #[inline]
    fn only(q: usize, is: bool) -> u8 {
        (is as u8) << q
    }

    #[inline]
    fn below(x: u16) -> u8 {
        (x % 256) as u8
    }

    #[inline]
    fn has(self, q: usize) -> bool {
        (self >> q) & 1 == 1
    }

    #[inline]
    fn union(self, other: u8) -> u8 {
        self | other
    }

    #[inline]
    fn meets(self, other: u8) -> bool {
        self & other != 0
    }
}

#[tactic(auto, using(crate::proofs::Sets::of_word))]
impl Set for u16 {
    const WIDTH: usize = 16;

    ghost WIDTH = { 16 };

    ghost none = { 0 };

    ghost bits = { λ x. x };

    #[inline]
    fn none() -> u16 {
        0
    }

    #[inline]
    fn only(q: usize, is: bool) -> u16 {
        (is as u16) << q
    }

    #[inline]
    fn below(x: u16) -> u16 {
        x
    }

    #[inline]
    fn has(self, q: usize) -> bool {
        (self >> q) & 1 == 1
    }

    #[inline]
    fn union(self, other: u16) -> u16 {
        self | other
    }

    #[inline]
    fn meets(self, other: u16) -> bool {
        self & other != 0
    }
}

// Is each member of x one of y? It is if what x shares with y is all of x.
#[tactic(auto, using(crate::proofs::Sets::subset_test))]
pub fn within(x: u8, y: u8) -> bool
    ensures { result ≡ subset 8 x y }
{
    x & y == x
}

// What the members of x step to, row[q] being what q steps to: the union of the members' rows.
#[tactic(auto, using(crate::proofs::Moved::member_by_member))]
pub fn moved<S: Set>(row: &[S], x: S) -> S
    requires { length row.now ≡ S.WIDTH }
    ensures { S.bits result ≡ moved S.WIDTH (by_sets S.bits S.none row.now) (S.bits x) }
{
    let mut out = S::none();
    for (q, set) in row.iter().enumerate() {
        if x.has(q) {
            out = out.union(*set);
        }
    }
    out
}

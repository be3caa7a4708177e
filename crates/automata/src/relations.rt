//! Sets of pairs of states, row by row: eight states in a number of 64 bits, row q in its byte q; sixteen in as many rows.
ghost use Rattle.std.specs.Prelude.{◌≡◌, ℕ, ◌*◌, ◌<◌, eqb, IsTrue};
ghost use Rattle.bits.specs.Pairs.{row, pairs};
ghost use Rattle.automata.specs.Loaded.{listed};
ghost use Rattle.automata.specs.Repeated.{met, led_on, paths_over};

use bits::members::Set;

// Pairs of states below the width of a row.
pub trait Relation: Copy {
    type Row: Set;

    ghost packed: { Self → ℕ };

    // No pairs.
    fn none() -> Self
        ensures { packed result ≡ 0 };

    // True only where there is no pair.
    fn is_none(self) -> bool
        ensures { IsTrue result → packed self ≡ 0 };

    // Row q: what q is paired with. By reference, so that for one row the others are not copied.
    fn row(&self, q: usize) -> Self::Row
        requires { q < Self.Row.WIDTH }
        ensures { Self.Row.bits result ≡ row Self.Row.WIDTH (packed self.now) q };

    // These pairs, and those of c that end in p, led on to the members of y.
    fn led_on(self, c: Self, p: usize, y: Self::Row) -> Self
        requires { p < Self.Row.WIDTH }
        ensures { packed result ≡ led_on Self.Row.WIDTH (packed self) (packed c) p (Self.Row.bits y) };

    // These pairs, and of those of `reach` the ones that end in a member of `accepting`.
    fn met(self, reach: Self, accepting: Self::Row) -> Self
        ensures { packed result ≡ met Self.Row.WIDTH (packed self) (packed reach) (Self.Row.bits accepting) };

    // These pairs, and each state to itself.
    fn with_itself(self) -> Self
        ensures { packed result ≡ paths_over Self.Row.WIDTH (packed self) 0 };
}

// x in each row: all pairs that end in x.
#[tactic(auto, unfolding(bits::specs::Pairs::pairs, bits::specs::Bits::pack))]
fn columns(x: u8) -> u64
    ensures { result ≡ pairs 8 (λ q. x) }
{
    0x0101_0101_0101_0101 * (x as u64)
}

impl Relation for u64 {
    type Row = u8;

    ghost packed = { λ c. c };

    #[inline]
    fn none() -> u64 {
        0
    }

    #[inline]
    fn is_none(self) -> bool {
        self == 0
    }

    #[inline]
    fn row(&self, q: usize) -> u8 {
        bits::rows::row_of(*self, q)
    }

    // Column p of c, times the row y: all rows are led on at once.
    #[inline]
    fn led_on(self, c: u64, p: usize, y: u8) -> u64 {
        let column = (c >> p) & 0x0101_0101_0101_0101;
        self | (column * (y as u64))
    }

    #[inline]
    fn met(self, reach: u64, accepting: u8) -> u64 {
        self | (reach & columns(accepting))
    }

    #[inline]
    fn with_itself(self) -> u64 {
        self | 0x8040_2010_0804_0201
    }
}

impl Relation for [u16; 16] {
    type Row = u16;

    ghost packed = { listed 16 };

    #[tactic(auto, unfolding(crate::specs::Loaded::listed, bits::specs::Pairs::pairs, bits::specs::Bits::pack))]
    fn none() -> [u16; 16] {
        [0; 16]
    }

    fn is_none(self) -> bool {
        self == [0; 16]
    }

    #[inline]
    fn row(&self, q: usize) -> u16 {
        self[q]
    }

    // To row q comes y, times bit p of row q of c.
    fn led_on(self, c: [u16; 16], p: usize, y: u16) -> [u16; 16] {
        let mut out = self;
        for (q, row) in out.iter_mut().enumerate() {
            *row |= ((c[q] >> p) & 1) * y;
        }
        out
    }

    fn met(self, reach: [u16; 16], accepting: u16) -> [u16; 16] {
        let mut out = self;
        for (q, row) in out.iter_mut().enumerate() {
            *row |= reach[q] & accepting;
        }
        out
    }

    fn with_itself(self) -> [u16; 16] {
        let mut out = self;
        for (q, row) in out.iter_mut().enumerate() {
            *row |= 1 << q;
        }
        out
    }
}

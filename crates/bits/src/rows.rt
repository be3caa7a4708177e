//! Sets of pairs of numbers below 8 in a u64, a byte for each row.
ghost use Rattle.std.specs.Prelude.{◌≡◌, ◌<◌};
ghost use Rattle.bits.specs.Pairs.{row, rows_of};

// Row q of c: its byte q.
#[tactic(auto, using(crate::proofs::Pairs::row_shifted))]
pub fn row_of(c: u64, q: usize) -> u8
    requires { q < 8 }
    ensures { result ≡ row 8 c q }
{
    ((c >> (8 * q)) & 0xff) as u8
}

// All pairs that start in x: row q is full, 255, where q is a member of x, and else empty.
#[tactic(auto, using(crate::proofs::Contained::row_by_row))]
pub fn rows(x: u8) -> u64
    ensures { result ≡ rows_of 8 x }
{
    let set = x as u64;
    let mut out: u64 = 0;
    for q in 0..8u64 {
        let row = ((set >> q) & 1) * 0xff;
        out = out | (row << (8 * q));
    }
    out
}

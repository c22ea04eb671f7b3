ghost use Rattle.std.specs.Prelude.{◌≡◌, ◌+◌, ◌*◌, ◌%◌, ◌<◌, ◌^◌, EachIndex, length, slice_index};
ghost use lib.IntN.{pos, ◌+ℤ◌, ◌*ℤ◌};
ghost use Rattle.heco_ring.specs.Remainders.{rem};
ghost use Rattle.heco_ring.specs.Ring.{wholes};
ghost use Rattle.heco_ring.specs.Rows.{shift_at};

use crate::lanes::{LANES, add_four};

/// Each place of out gains c times that of b, in words that wrap: four at once, and the rest one by one.
fn add_multiple(out: &mut [u64], b: &[u64], c: u64)
    requires { length b.now ≡ length out.old }
    ensures { EachIndex out.new (λ k. slice_index out.new k ≡ (slice_index out.old k + c * slice_index b.now k) % 2 ^ 64) }
{
    let fours = out.len() / LANES;
    for four in 0..fours {
        add_four(out, b, c, LANES * four);
    }
    for i in LANES * fours..out.len() {
        out[i] = out[i].wrapping_add(c.wrapping_mul(b[i]));
    }
}

/// out gains c x^i b, in words that wrap.
pub fn add_row(out: &mut [u64], b: &[u64], c: u64, i: usize)
    requires same { length b.now ≡ length out.old }
    requires inside { i < length out.old }
    ensures { EachIndex out.new (λ k. slice_index out.new k ≡ rem (2 ^ 64) (pos (slice_index out.old k) +ℤ pos c *ℤ shift_at (length b.now) (wholes b.now) i k)) }
{
    let n = out.len();
    let (low, high) = out.split_at_mut(i);
    add_multiple(high, &b[..n - i], c);
    add_multiple(low, &b[n - i..], c.wrapping_neg());
}

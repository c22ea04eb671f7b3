ghost use Rattle.std.specs.Prelude.{◌≡◌, ◌^◌, length};
ghost use Rattle.heco_ring.specs.Remainders.{reduced};
ghost use Rattle.heco_ring.specs.Ring.{wholes, times};

use crate::{row, words};

/// The product: n rows, and then each place modulo 2^58.
pub fn product(a: &[u64], b: &[u64], out: &mut [u64])
    requires b_len { length b.now ≡ length a.now }
    requires out_len { length out.old ≡ length a.now }
    ensures { let n = length a.now in out.new ≡ reduced (2 ^ 58) n (times n (wholes a.now) (wholes b.now)) }
{
    words::clear(out);
    for i in 0..a.len() {
        row::add_row(out, b, a[i], i);
    }
    words::mask(out);
}

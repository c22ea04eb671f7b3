ghost use Rattle.std.specs.Prelude.{◌≡◌, ◌^◌, length};
ghost use Rattle.heco_ring.specs.Remainders.{reduced};
ghost use Rattle.heco_ring.specs.Ring.{wholes, times};

use crate::{residue, row, words};

/// The product by small whole numbers: a row for each that is not 0.
pub fn sparse(small: &[i8], b: &[u64], out: &mut [u64])
    requires small_len { length small.now ≡ length b.now }
    requires out_len { length out.old ≡ length b.now }
    ensures { let n = length b.now in out.new ≡ reduced (2 ^ 58) n (times n small.now (wholes b.now)) }
{
    words::clear(out);
    for i in 0..small.len() {
        if small[i] != 0 {
            row::add_row(out, b, residue::of_word(small[i]), i);
        }
    }
    words::mask(out);
}

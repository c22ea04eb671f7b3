ghost use Rattle.std.specs.Prelude.{◌≡◌, ◌^◌, length};
ghost use lib.IntN.{pos};
ghost use Rattle.heco_ring.specs.Remainders.{reduced};
ghost use Rattle.heco_ring.specs.Ring.{wholes, scale};

use crate::residue;

/// Each place times c.
pub fn scale(a: &mut [u64], c: u64)
    ensures { let n = length a.old in a.new ≡ reduced (2 ^ 58) n (scale n (pos c) (wholes a.old)) }
{
    for i in 0..a.len() {
        a[i] = residue::mul(a[i], c);
    }
}

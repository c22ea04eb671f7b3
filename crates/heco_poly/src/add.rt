ghost use Rattle.std.specs.Prelude.{◌≡◌, ◌^◌, length};
ghost use Rattle.heco_ring.specs.Remainders.{reduced};
ghost use Rattle.heco_ring.specs.Ring.{wholes, plus};

use crate::residue;

/// a gains b, place by place.
pub fn add(a: &mut [u64], b: &[u64])
    requires { length b.now ≡ length a.old }
    ensures { let n = length a.old in a.new ≡ reduced (2 ^ 58) n (plus n (wholes a.old) (wholes b.now)) }
{
    for i in 0..a.len() {
        a[i] = residue::add(a[i], b[i]);
    }
}

ghost use Rattle.std.specs.Prelude.{◌≡◌, ◌<◌, ◌≤◌, ◌^◌, length};
ghost use Rattle.heco_ring.specs.Remainders.{reduced};
ghost use Rattle.heco_ring.specs.Ring.{wholes, turn};

use crate::{residue, words};

/// Place i goes to i g modulo 2n, or to n places less with its sign changed.
pub fn turn(a: &[u64], g: usize, out: &mut [u64])
    requires same { length out.old ≡ length a.now }
    requires short { length a.now ≤ 1024 }
    requires g_small { g < 2 ^ 32 }
    ensures { let n = length a.now in out.new ≡ reduced (2 ^ 58) n (turn n (wholes a.now) g) }
{
    words::clear(out);
    let n = a.len();
    for i in 0..n {
        let place = i * g % (2 * n);
        if place < n {
            out[place] = residue::add(out[place], a[i]);
        } else {
            out[place - n] = residue::sub(out[place - n], a[i]);
        }
    }
}

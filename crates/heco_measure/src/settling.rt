//! From a message's coefficients modulo q to those modulo t.

ghost use Rattle.std.specs.Prelude.{◌≡◌, ◌<◌, ◌^◌, length};
ghost use Rattle.heco_nums.specs.Arithmetic.{centre_q};
ghost use Rattle.heco_ring.specs.Remainders.{rem, reduced};
ghost use Rattle.heco_scheme.specs.Rounding.{centred};

use heco_nums::Preset;
use heco_poly::Poly;

/// x, centred modulo q = 2^58, modulo t.
fn settled(t: u32, x: u64) -> u64
    requires t { 0 < t }
    requires x { x < 2 ^ 58 }
    ensures value { result ≡ rem t (centre_q x) }
    ensures below { result < t }
{
    let t = u64::from(t);
    if x < 1 << 57 {
        x % t
    } else {
        (t - ((1 << 58) - x) % t) % t
    }
}

/// Makes each coefficient, centred modulo q, its remainder modulo t.
pub fn settle(p: &Preset, x: &mut Poly)
    requires { length x.old ≡ p.now.n }
    ensures { x.new ≡ reduced p.now.t p.now.n (centred p.now.n x.old) }
{
    for k in 0..p.n {
        x.set(k, settled(p.t, x.get(k)));
    }
}

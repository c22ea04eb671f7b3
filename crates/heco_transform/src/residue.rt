ghost use Rattle.std.specs.Prelude.{◌≡◌, ◌<◌, ◌*◌};
ghost use lib.IntN.{pos, ◌*ℤ◌};
ghost use Rattle.heco_ring.specs.Remainders.{Cong};

use crate::{Factor, P};

/// x c modulo P, below 2 P, for any word x. After Shoup: the quotient by P is off by one at most.
pub fn times(x: u64, c: Factor) -> u64
    ensures value { Cong P (pos result) (pos x *ℤ pos c) }
    ensures below { result < 2 * P }
{
    let quotient = ((u128::from(x) * u128::from(c.ratio)) >> 64) as u64;
    x.wrapping_mul(c.value)
        .wrapping_sub(quotient.wrapping_mul(P))
}

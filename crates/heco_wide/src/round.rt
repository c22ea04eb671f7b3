ghost use Rattle.std.specs.Prelude.{◌≡◌, ◌≤◌, ◌^◌, length};
ghost use Rattle.std.specs.Int.RustNames.{unsigned_abs};
ghost use Rattle.heco_ring.specs.Remainders.{rem};
ghost use Rattle.heco_noise_laws.specs.Noise.{rounded};
ghost use Rattle.heco_scheme.specs.Rounding.{rounded_all};
ghost use Rattle.heco_wide.specs.inside.Wide.{FitsAll};

use heco_poly::Poly;

const Q: i128 = 1 << 58;

const HALF: i128 = 1 << 57;

/// t x / q to the nearest whole number, halves up, modulo q. By a high and a low part of x, so that nothing overflows.
fn round(t: u32, x: i128) -> u64
    requires t_small { t ≤ 65537 }
    requires x_small { unsigned_abs x ≤ 2 ^ 125 }
    ensures { result ≡ rem (2 ^ 58) (rounded (2 ^ 58) t x) }
{
    let high = x.div_euclid(Q);
    let low = x.rem_euclid(Q);
    let t = i128::from(t);
    let part = (t * low + HALF).div_euclid(Q);
    let whole = t * high + part;
    whole.rem_euclid(Q) as u64
}

/// Each number times t / q, rounded, modulo q.
pub fn round_all(t: u32, x: &[i128], out: &mut Poly)
    requires t_small { t ≤ 65537 }
    requires long { length out.old ≡ length x.now }
    requires short { length x.now ≤ 1024 }
    requires small { FitsAll (2 ^ 125) x.now }
    ensures value { out.new ≡ rounded_all (length x.now) t x.now }
    ensures long { length out.new ≡ length x.now }
{
    for k in 0..out.len() {
        out.set(k, round(t, x[k as usize]));
    }
}

ghost use Rattle.std.specs.Prelude.{◌≡◌, ◌/◌, ◌<◌, ◌^◌, All, EachIndex, length, slice_index};
ghost use lib.IntN.{pos, ◌-ℤ◌};
ghost use Rattle.heco_nums.specs.Arithmetic.{centre_q};
ghost use Rattle.heco_wide.specs.inside.Wide.{int_at};

/// q / 2.
const HALF: u64 = 1 << 57;

/// The centred coefficient, from -q/2 to q/2 - 1, and q/2.
fn shifted(c: u64) -> u64
    requires { c < 2 ^ 58 }
    ensures value { pos result -ℤ pos (2 ^ 57) ≡ centre_q c }
    ensures below { result < 2 ^ 58 }
{
    if c < HALF { c + HALF } else { c - HALF }
}

/// The centred coefficients, and q/2 with each, so that none is negative.
pub fn shift_all(c: &[u64], out: &mut [u64])
    requires long { length out.old ≡ length c.now }
    requires below { All (λ x. x < 2 ^ 58) c.now }
    ensures value { EachIndex out.new (λ k. pos (slice_index out.new k) -ℤ pos (2 ^ 57) ≡ centre_q (slice_index c.now k)) }
    ensures below { EachIndex out.new (λ k. slice_index out.new k < 2 ^ 58) }
{
    for k in 0..c.len() {
        out[k] = shifted(c[k]);
    }
}

/// What stands at 2^38 in w - q/2, for w below q.
fn high_limb(w: u64) -> i64
    requires { w < 2 ^ 58 }
    ensures { result ≡ pos (w / 2 ^ 38) -ℤ pos (2 ^ 19) }
{
    (w >> 38) as i64 - (1 << 19)
}

/// The same of each word.
pub fn high_limbs(w: &[u64], out: &mut [i64])
    requires long { length out.old ≡ length w.now }
    requires below { EachIndex w.now (λ k. slice_index w.now k < 2 ^ 58) }
    ensures { EachIndex out.new (λ k. int_at out.new k ≡ pos (slice_index w.now k / 2 ^ 38) -ℤ pos (2 ^ 19)) }
{
    for k in 0..w.len() {
        out[k] = high_limb(w[k]);
    }
}

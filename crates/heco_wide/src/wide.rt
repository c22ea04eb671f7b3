ghost use Rattle.std.specs.Prelude.{◌≡◌, ◌*◌, ◌≤◌, ◌^◌, EachIndex, length};
ghost use Rattle.std.specs.Int.RustNames.{unsigned_abs};
ghost use lib.IntN.{pos, ◌+ℤ◌, ◌*ℤ◌};
ghost use Rattle.heco_wide.specs.inside.Wide.{int_at, FitsAll};

/// What a limb counts against the one below it.
const BASE: i128 = 1 << 19;

/// 2^19 x and y.
fn joined(x: i128, y: i64) -> i128
    requires { unsigned_abs x ≤ 7 * 2 ^ 105 }
    ensures { result ≡ x *ℤ pos (2 ^ 19) +ℤ y }
{
    x * BASE + i128::from(y)
}

/// Each number becomes 2^19 times itself and that of y.
pub fn join_all(x: &mut [i128], y: &[i64])
    requires same { length y.now ≡ length x.old }
    requires small { FitsAll (7 * 2 ^ 105) x.old }
    ensures { EachIndex x.new (λ k. int_at x.new k ≡ int_at x.old k *ℤ pos (2 ^ 19) +ℤ int_at y.now k) }
{
    for k in 0..x.len() {
        x[k] = joined(x[k], y[k]);
    }
}

/// Each number becomes 0.
pub fn clear(x: &mut [i128])
    ensures { EachIndex x.new (λ k. int_at x.new k ≡ pos 0) }
{
    for k in 0..x.len() {
        x[k] = 0;
    }
}

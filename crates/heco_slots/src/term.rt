ghost use Rattle.std.specs.Prelude.{◌≡◌, ◌+◌, ◌*◌, ◌≤◌, ◌^◌};

/// One term more. No remainder is taken: 1024 terms fit.
pub fn add_term(sum: u64, x: u32, y: u32) -> u64
    requires sum { sum ≤ 2 ^ 43 }
    requires x { x ≤ 65536 }
    requires y { y ≤ 65536 }
    ensures { result ≡ sum + x * y }
{
    sum + u64::from(x) * u64::from(y)
}

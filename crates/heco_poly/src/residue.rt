ghost use Rattle.std.specs.Prelude.{◌≡◌, ◌<◌, ◌^◌};
ghost use Rattle.std.specs.Int.RustNames.{unsigned_abs};
ghost use lib.IntN.{pos, ◌+ℤ◌, ◌-ℤ◌, ◌*ℤ◌, neg_ℤ};
ghost use Rattle.heco_ring.specs.Remainders.{rem};

use heco_nums::Q_MASK;

/// The sum modulo 2^58.
pub fn add(x: u64, y: u64) -> u64
    ensures { result ≡ rem (2 ^ 58) (pos x +ℤ pos y) }
{
    x.wrapping_add(y) & Q_MASK
}

/// The difference modulo 2^58.
pub fn sub(x: u64, y: u64) -> u64
    ensures { result ≡ rem (2 ^ 58) (pos x -ℤ pos y) }
{
    x.wrapping_sub(y) & Q_MASK
}

/// The product modulo 2^58.
pub fn mul(x: u64, y: u64) -> u64
    ensures { result ≡ rem (2 ^ 58) (pos x *ℤ pos y) }
{
    x.wrapping_mul(y) & Q_MASK
}

/// A small whole number modulo 2^58.
pub fn of(c: i64) -> u64
    ensures { result ≡ rem (2 ^ 58) c }
{
    c.rem_euclid(1 << 58) as u64
}

/// A word modulo 2^58.
pub fn of_word(word: i8) -> u64
    ensures { result ≡ rem (2 ^ 58) word }
{
    of(i64::from(word))
}

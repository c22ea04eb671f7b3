ghost use Rattle.std.specs.Prelude.{◌≡◌, ◌<◌, ◌+◌, ◌-◌, ◌*◌, ◌%◌, ◌^◌};
ghost use Rattle.heco_nums.specs.Arithmetic.{centre_t, centre_q, scaled};

use crate::Preset;

/// The low 58 bits of a word: `x & Q_MASK` is x modulo q.
pub const Q_MASK: u64 = (1 << 58) - 1;

/// The sum modulo t.
pub fn add_t(p: &Preset, a: u32, b: u32) -> u32
    requires a { a < p.now.t }
    requires b { b < p.now.t }
    ensures { result ≡ (a + b) % p.now.t }
{
    (a + b) % p.t
}

/// The product modulo t.
pub fn mul_t(p: &Preset, a: u32, b: u32) -> u32
    requires a { a < p.now.t }
    requires b { b < p.now.t }
    ensures { result ≡ a * b % p.now.t }
{
    let product = u64::from(a) * u64::from(b) % u64::from(p.t);
    product as u32
}

/// The negative modulo t.
pub fn neg_t(p: &Preset, a: u32) -> u32
    requires { a < p.now.t }
    ensures { result ≡ (p.now.t - a) % p.now.t }
{
    (p.t - a) % p.t
}

/// The power modulo t, by squares.
pub fn pow_t(p: &Preset, a: u32, e: u64) -> u32
    requires { a < p.now.t }
    ensures { result ≡ a ^ e % p.now.t }
{
    let mut power = 1;
    let mut square = a;
    let mut left = e;
    while left > 0 {
        if left % 2 == 1 {
            power = mul_t(p, power, square);
        }
        square = mul_t(p, square, square);
        left /= 2;
    }
    power
}

/// c between -t/2 and t/2: c below t/2, else c - t.
pub fn centre_t(p: &Preset, c: u32) -> i64
    requires { c < p.now.t }
    ensures { result ≡ centre_t p.now.t c }
{
    if 2 * c < p.t {
        i64::from(c)
    } else {
        i64::from(c) - i64::from(p.t)
    }
}

/// c between -q/2 and q/2, q being 2^58: c below 2^57, else c - 2^58.
pub fn centre_q(c: u64) -> i64
    requires { c < 2 ^ 58 }
    ensures { result ≡ centre_q c }
{
    if c < 1 << 57 {
        c as i64
    } else {
        c as i64 - (1 << 58)
    }
}

#[tactic(auto, using(crate::proofs::PresetFacts::facts))]
/// floor((q c + floor(t/2)) / t), q being 2^58: what a plaintext coefficient is in a ciphertext.
pub fn scaled(p: &Preset, c: u32) -> u64
    requires { c < p.now.t }
    ensures { result ≡ scaled p.now.t c }
{
    let product = (u128::from(c) << 58) + u128::from(p.t / 2);
    (product / u128::from(p.t)) as u64
}

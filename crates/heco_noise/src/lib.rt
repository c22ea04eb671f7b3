//! The written noise bounds: what each gate does to the bound of its operands' noise.
//!
//! A bound is in units of which the ciphertext modulus q = 2^58 has q, over a value t*z - q*m for the message m.
#![tactic(auto)]

ghost use Rattle.std.specs.Prelude.{◌≡◌, ◌<◌, ◌^◌};
ghost use Rattle.heco_noise.specs.Rows.{IsQuiet};
ghost use Rattle.heco_noise.specs.Rows as rows;

use heco_nums::{Preset, centre_t};

/// A fresh encryption: `(t-1)/2 + t*b*(2h+1)`.
pub fn fresh(p: &Preset) -> u128
    ensures { result ≡ rows.fresh p.now.t p.now.h p.now.b }
{
    let (t, h, b) = (u128::from(p.t), u128::from(p.h), u128::from(p.b));
    (t - 1) / 2 + t * b * (2 * h + 1)
}

/// A sum or a difference: `a + b`.
pub fn added(a: u128, b: u128) -> u128
    requires a { IsQuiet a }
    requires b { IsQuiet b }
    ensures { result ≡ rows.added a b }
{
    a + b
}

/// A turn or a relinearisation: the operand's and that of a key switch, `t*l*n*(2^w-1)*b`.
pub fn turned(p: &Preset, e: u128) -> u128
    requires { IsQuiet e }
    ensures { result ≡ rows.turned p.now.t p.now.n p.now.b e }
{
    e + u128::from(p.t) * 29 * u128::from(p.n) * 3 * u128::from(p.b)
}

/// The multiple by c, which is centred first: `abs(centre_t(c))*e`.
pub fn scaled_by(p: &Preset, c: u32, e: u128) -> u128
    requires c { c < p.now.t }
    requires e { IsQuiet e }
    ensures { result ≡ rows.scaled_by p.now.t c e }
{
    u128::from(centre_t(p, c).unsigned_abs()) * e
}

/// A product by a plain polynomial: `s*e`, s being the sum of the sizes of its coefficients.
pub fn weighed(s: u64, e: u128) -> u128
    requires s { s < 2 ^ 26 }
    requires e { IsQuiet e }
    ensures { result ≡ rows.weighed s e }
{
    u128::from(s) * e
}

/// A constant added: `e + (t-1)/2`.
pub fn shifted(p: &Preset, e: u128) -> u128
    requires { IsQuiet e }
    ensures { result ≡ rows.shifted p.now.t e }
{
    e + u128::from((p.t - 1) / 2)
}

/// A product: `n*(Mb+1)*(a+b) + t*(1+h+h*h)`, where `Mb = floor((t*(1+h)+1)/2)`.
pub fn multiplied(p: &Preset, a: u128, b: u128) -> u128
    requires a { IsQuiet a }
    requires b { IsQuiet b }
    ensures { result ≡ rows.multiplied p.now.n p.now.t p.now.h a b }
{
    let (n, t, h) = (u128::from(p.n), u128::from(p.t), u128::from(p.h));
    let message = (t * (1 + h) + 1) / 2;
    n * (message + 1) * (a + b) + t * (1 + h + h * h)
}

/// Whether decryption is no longer sure: `2*e >= 2^58`.
pub fn passes(e: u128) -> bool
    ensures { result ≡ rows.passes e }
{
    e >= 1 << 57
}

#[cfg(test)]
mod tests;

//! Polynomials made of others.

ghost use Rattle.std.specs.Prelude.{◌≡◌, IfOk, length};

use heco_nums::{Memory, Preset};
use heco_poly::Poly;
use std::alloc::Global;

pub fn copied(alloc: Global, p: &Preset, a: &Poly) -> Result<Poly, Memory>
    requires { length a.now ≡ p.now.n }
    ensures value { IfOk result (λ b. b ≡ a.now) }
    ensures long { IfOk result (λ b. length b ≡ p.now.n) }
{
    let mut b = Poly::zero(alloc, p)?;
    b.copy_in(a);
    Ok(b)
}

/// The polynomial of these coefficients.
pub fn of_words(alloc: Global, p: &Preset, words: &[u32]) -> Result<Poly, Memory>
    requires { length words.now ≡ p.now.n }
    ensures { IfOk result (λ a. a ≡ words.now) }
{
    let mut a = Poly::zero(alloc, p)?;
    for k in 0..p.n {
        a.set(k, u64::from(words[k as usize]));
    }
    Ok(a)
}

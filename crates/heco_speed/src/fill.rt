ghost use Rattle.std.specs.Prelude.{◌≡◌, IfOk, length};

use heco_nums::{Memory, Preset};
use heco_poly::Poly;
use std::alloc::Global;

fn fill(out: &mut Poly, seed: u64)
    ensures { length out.new ≡ length out.old }
{
    let mut x = seed;
    for k in 0..out.len() {
        x = x
            .wrapping_mul(6364136223846793005)
            .wrapping_add(1442695040888963407);
        out.set(k, x >> 6);
    }
}

/// Coefficients that look random, by Knuth's linear congruence.
pub fn filled(alloc: Global, p: &Preset, seed: u64) -> Result<Poly, Memory>
    ensures { IfOk result (λ a. length a ≡ p.now.n) }
{
    let mut out = Poly::zero(alloc, p)?;
    fill(&mut out, seed);
    Ok(out)
}

/// Two such polynomials.
#[derive(Drop)]
pub struct Pair {
    pub first: Poly,
    pub second: Poly,
}

impl Pair {
    pub fn filled(alloc: Global, p: &Preset, seeds: (u64, u64)) -> Result<Pair, Memory>
        ensures first { IfOk result (λ c. length c.first ≡ p.now.n) }
        ensures second { IfOk result (λ c. length c.second ≡ p.now.n) }
    {
        let first = filled(alloc, p, seeds.0)?;
        let second = filled(alloc, p, seeds.1)?;
        Ok(Pair { first, second })
    }
}

/// Words as one number.
pub fn sum(words: &[u64]) -> u64 {
    let mut sum = 0u64;
    for x in words {
        sum = sum.wrapping_mul(1099511628211).wrapping_add(*x);
    }
    sum
}

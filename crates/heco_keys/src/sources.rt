ghost use Rattle.std.specs.Prelude.{◌≡◌, ◌*◌, ◌%◌, ◌^◌, ◌<◌, ◌≤◌, IfOk, length};
ghost use Rattle.heco_ring.specs.Remainders.{reduced};
ghost use Rattle.heco_scheme.specs.Keys.{square, turned_secret};
ghost use Rattle.heco_keys.specs.Made.{source_of};

use heco_nums::{Memory, Preset};
use heco_poly::Poly;
use std::alloc::Global;

/// What a switch key switches from: the square of the secret, or the secret turned by so many slots.
#[tactic(auto, unfolding(crate::specs::Made::source_of))]
pub fn source(alloc: Global, p: &Preset, s: &[i8], kind: Option<u16>) -> Result<Poly, Memory>
    requires { length s.now ≡ p.now.n }
    ensures value { IfOk result (λ x. x ≡ reduced (2 ^ 58) p.now.n (source_of p.now.n s.now kind)) }
    ensures long { IfOk result (λ x. length x ≡ p.now.n) }
{
    match kind {
        None => squared(alloc, p, s),
        Some(r) => rotated(alloc, p, s, r),
    }
}

fn squared(alloc: Global, p: &Preset, s: &[i8]) -> Result<Poly, Memory>
    requires { length s.now ≡ p.now.n }
    ensures value { IfOk result (λ x. x ≡ reduced (2 ^ 58) p.now.n (square p.now.n s.now)) }
    ensures long { IfOk result (λ x. length x ≡ p.now.n) }
{
    let mut small = Poly::zero(alloc, p)?;
    let mut out = Poly::zero(alloc, p)?;
    square_into(p, s, &mut small, &mut out);
    Ok(out)
}

fn square_into(p: &Preset, s: &[i8], small: &mut Poly, out: &mut Poly)
    requires s { length s.now ≡ p.now.n }
    requires small { length small.old ≡ p.now.n }
    requires out { length out.old ≡ p.now.n }
    ensures value { out.new ≡ reduced (2 ^ 58) p.now.n (square p.now.n s.now) }
    ensures long { length out.new ≡ p.now.n }
{
    Poly::small_into(s, small);
    Poly::mul_sparse_into(s, small, out);
}

fn rotated(alloc: Global, p: &Preset, s: &[i8], r: u16) -> Result<Poly, Memory>
    requires { length s.now ≡ p.now.n }
    ensures value { IfOk result (λ x. x ≡ reduced (2 ^ 58) p.now.n (turned_secret p.now.n s.now r)) }
    ensures long { IfOk result (λ x. length x ≡ p.now.n) }
{
    let mut small = Poly::zero(alloc, p)?;
    let mut out = Poly::zero(alloc, p)?;
    rotate_into(p, s, r, &mut small, &mut out);
    Ok(out)
}

fn rotate_into(p: &Preset, s: &[i8], r: u16, small: &mut Poly, out: &mut Poly)
    requires s { length s.now ≡ p.now.n }
    requires small { length small.old ≡ p.now.n }
    requires out { length out.old ≡ p.now.n }
    ensures value { out.new ≡ reduced (2 ^ 58) p.now.n (turned_secret p.now.n s.now r) }
    ensures long { length out.new ≡ p.now.n }
{
    Poly::small_into(s, small);
    Poly::turn_into(small, exponent(p, r), out);
}

/// The exponent of a turn by r slots: 3^r modulo 2n.
#[tactic(auto, using(heco_nums::proofs::PresetFacts::facts))]
pub fn exponent(p: &Preset, r: u16) -> u32
    ensures value { result ≡ 3 ^ r % (2 * p.now.n) }
    ensures small { result < 2 * p.now.n }
{
    let mut power = 1;
    for _ in 0..r {
        power = power * 3 % (2 * p.n);
    }
    power
}

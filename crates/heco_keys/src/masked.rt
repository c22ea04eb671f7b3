ghost use Rattle.std.specs.Prelude.{◌≡◌, IfOk, length};
ghost use Rattle.heco_scheme.specs.Keys.{key_part};

use heco_nums::{Memory, Preset};
use heco_poly::Poly;
use std::alloc::Global;

/// -(a s + e): the first part of a public key. The product walks only the places of s that are not 0.
pub fn masked(alloc: Global, p: &Preset, s: &[i8], a: &Poly, e: &[i8]) -> Result<Poly, Memory>
    requires s { length s.now ≡ p.now.n }
    requires a { length a.now ≡ p.now.n }
    requires e { length e.now ≡ p.now.n }
    ensures value { IfOk result (λ x. x ≡ key_part p.now.n s.now a.now e.now) }
    ensures long { IfOk result (λ x. length x ≡ p.now.n) }
{
    let mut out = Poly::zero(alloc, p)?;
    let mut error = Poly::zero(alloc, p)?;
    mask(p, s, a, e, &mut error, &mut out);
    Ok(out)
}

fn mask(p: &Preset, s: &[i8], a: &Poly, e: &[i8], error: &mut Poly, out: &mut Poly)
    requires s { length s.now ≡ p.now.n }
    requires a { length a.now ≡ p.now.n }
    requires e { length e.now ≡ p.now.n }
    requires error { length error.old ≡ p.now.n }
    requires out { length out.old ≡ p.now.n }
    ensures value { out.new ≡ key_part p.now.n s.now a.now e.now }
    ensures long { length out.new ≡ p.now.n }
{
    Poly::mul_sparse_into(s, a, out);
    Poly::small_into(e, error);
    out.add_in(error);
    out.neg_in();
}

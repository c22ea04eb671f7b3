ghost use Rattle.std.specs.Prelude.{◌≡◌, IfOk};
ghost use Rattle.heco_nums.specs.MaterialBounds.{AreWords};

use heco_nums::{Memory, Preset};
use heco_poly::Poly;
use std::alloc::Global;

/// The polynomial with these coefficients.
pub fn poly_of(alloc: Global, p: &Preset, words: &[u64]) -> Result<Poly, Memory>
    requires { AreWords p.now.n words.now }
    ensures { IfOk result (λ a. a ≡ words.now) }
{
    let mut out = Poly::zero(alloc, p)?;
    for i in 0..p.n {
        out.set(i, words[i as usize]);
    }
    Ok(out)
}

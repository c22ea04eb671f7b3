ghost use Rattle.std.specs.Prelude.{◌≡◌, ◌<◌, IfOk, length};
ghost use Rattle.heco_scheme.specs.Keys.{AreRows};

use crate::fill::filled;
use heco_keys::SwitchKey;
use heco_nums::{List, Memory, Preset};
use heco_poly::Poly;
use heco_transform::Transform;
use std::alloc::Global;

/// Row i of a key.
fn row(alloc: Global, p: &Preset, i: u64) -> Result<(Poly, Poly), Memory>
    requires { i < 29 }
    ensures first { IfOk result (λ r. length r.0 ≡ p.now.n) }
    ensures second { IfOk result (λ r. length r.1 ≡ p.now.n) }
{
    let first = filled(alloc, p, 10 + i)?;
    let second = filled(alloc, p, 39 + i)?;
    Ok((first, second))
}

/// A key whose rows look random, and which keeps no images.
pub fn bare_key(alloc: Global, p: &Preset) -> Result<SwitchKey, Memory>
    ensures { IfOk result (λ k. AreRows p.now.n k.rows) }
{
    let mut rows = List::new(alloc);
    for i in 0..29 {
        rows.push(row(alloc, p, i)?)?;
    }
    Ok(SwitchKey::of(rows))
}

/// The same key with its images.
pub fn imaged_key(alloc: Global, p: &Preset) -> Result<SwitchKey, Memory>
    ensures { IfOk result (λ k. AreRows p.now.n k.rows) }
{
    let transform = Transform::of_preset(alloc, p)?;
    bare_key(alloc, p)?.imaged(alloc, &transform)
}

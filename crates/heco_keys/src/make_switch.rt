ghost use Rattle.std.specs.Prelude.{◌≡◌, ◌^◌, ◌<◌, ℕ, ℤ, pos, IfOk, length, List as Seq};
ghost use Rattle.heco_ring.specs.Ring.{scale};
ghost use Rattle.heco_ring.specs.Remainders.{reduced};
ghost use Rattle.heco_scheme.specs.Keys.{switch_part};
ghost use Rattle.heco_material.specs.KeyLists.{IsSwitchRow, IsSwitch};
ghost use Rattle.heco_keys.specs.Made.{source_of, switch_rows};

use crate::coefficients::poly_of;
use crate::masked::masked;
use crate::sources::source;
use crate::switch_key::SwitchKey;
use heco_material::{SwitchRow, SwitchWords};
use heco_nums::{List, Memory, Preset};
use heco_poly::Poly;
use heco_transform::Transform;
use std::alloc::Global;

/// The pair of a row, where source is 4^i s'.
fn pair(
    alloc: Global,
    p: &Preset,
    s: &[i8],
    row: &SwitchRow,
    source: &Poly,
) -> Result<(Poly, Poly), Memory>
    requires s { length s.now ≡ p.now.n }
    requires row { IsSwitchRow p.now.n p.now.b row.now }
    requires source { length source.now ≡ p.now.n }
    ensures first { IfOk result (λ x. (t : Seq ℤ) (i : ℕ) → source.now ≡ reduced (2 ^ 58) p.now.n (scale p.now.n (pos (4 ^ i)) t) → x.0 ≡ switch_part p.now.n s.now t i row.now.a row.now.e) }
    ensures second { IfOk result (λ x. x.1 ≡ row.now.a) }
{
    let a = poly_of(alloc, p, row.a.as_slice())?;
    let mut first = masked(alloc, p, s, &a, row.e.as_slice())?;
    first.add_in(source);
    Ok((first, a))
}

/// The switch key of that kind to the secret s, from its words, with its images.
pub fn make_switch(
    alloc: Global,
    p: &Preset,
    transform: &Transform,
    s: &[i8],
    kind: Option<u16>,
    words: &SwitchWords,
) -> Result<SwitchKey, Memory>
    requires s { length s.now ≡ p.now.n }
    requires words { IsSwitch p.now.n p.now.b words.now }
    ensures { IfOk result (λ k. k.rows ≡ switch_rows p.now.n s.now (source_of p.now.n s.now kind) words.now.rows) }
{
    let mut source = source(alloc, p, s, kind)?;
    let mut pairs = List::new(alloc);
    for i in 0..29u32 {
        pairs.push(pair(alloc, p, s, words.rows.get(i as usize), &source)?)?;
        source.scale_in(4);
    }
    SwitchKey::of(pairs).imaged(alloc, transform)
}

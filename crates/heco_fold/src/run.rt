ghost use Rattle.std.specs.Prelude.{◌≡◌, ℕ, ◌+◌, ◌^◌, ◌%◌, ◌<◌, ◌≤◌, length, IfOk, IsNone, if◌then◌else◌, false, List as Seq};
ghost use Rattle.heco_written.specs.VectorTerm.{VectorTerm, Added, Turned};
ghost use Rattle.heco_written.specs.Fold.{fold};
ghost use Rattle.heco_ir.specs.declared.scalar.SNode.{SNode};
ghost use Rattle.heco_ir.specs.Ranges.{AllFit};
ghost use Rattle.heco_ir.specs.Terms.{vector_at, vector_terms, HasTerm, Extends};
ghost use Rattle.heco_fold.specs.Runs.{IsWithin, IsPower, FoldsLow};

use heco_cse::Cons;
use heco_ir::{NodeId, VNode};
use heco_nums::Memory;

/// The node of `v` plus `w` turned by `r`.
fn beside(c: &mut Cons, v: NodeId, r: u16, w: NodeId) -> Result<NodeId, Memory>
    requires left { v.0 < length c.old }
    requires right { w.0 < length c.old }
    requires room { length c.old + 2 ≤ 2 ^ 26 }
    ensures term { IfOk result (λ id. HasTerm c.new id.0 (Added (vector_at (vector_terms c.old) v) (Turned r (vector_at (vector_terms c.old) w)))) }
    ensures stands { Extends 2 c.old c.new }
    ensures fits { (slots modulus : ℕ) (es : Seq SNode) → 0 < r → r < slots → AllFit slots modulus es c.old → AllFit slots modulus es c.new }
{
    let turned = c.put(VNode::Turn { r, v: w })?;
    c.put(VNode::Add { v, w: turned })
}

/// The fold whose highest bit has the power, and whose low bits are folded already.
fn included(c: &mut Cons, power: NodeId, width: u16, low: Option<NodeId>) -> Result<NodeId, Memory>
    requires power { power.0 < length c.old }
    requires low { IsWithin (length c.old) low }
    requires room { length c.old + 2 ≤ 2 ^ 26 }
    ensures fold { (v : VectorTerm) (bit n : ℕ) → IsPower c.old v bit width power → FoldsLow c.old v bit n low
        → IfOk result (λ id. HasTerm c.new id.0 (fold v (2 ^ bit + n))) }
    ensures stands { Extends 2 c.old c.new }
    ensures alone { IsNone low → c.new ≡ c.old }
    ensures fits { (v : VectorTerm) (bit n slots modulus : ℕ) (es : Seq SNode) → IsPower c.old v bit width power → FoldsLow c.old v bit n low
        → 2 ^ bit + n ≤ slots → AllFit slots modulus es c.old → AllFit slots modulus es c.new }
{
    match low {
        None => Ok(power),
        Some(folded) => beside(c, power, width, folded),
    }
}

/// The fold of the low bits with one more, which is the power's where it is set.
fn low_bit(
    c: &mut Cons,
    power: NodeId,
    width: u16,
    low: Option<NodeId>,
    set: bool,
) -> Result<Option<NodeId>, Memory>
    requires power { power.0 < length c.old }
    requires low { IsWithin (length c.old) low }
    requires room { length c.old + 2 ≤ 2 ^ 26 }
    ensures fold { (v : VectorTerm) (bit n : ℕ) → IsPower c.old v bit width power → FoldsLow c.old v bit n low
        → IfOk result (λ new. FoldsLow c.new v (bit + 1) (if set then 2 ^ bit + n else n) new) }
    ensures stands { Extends 2 c.old c.new }
    ensures alone { set ≡ false → c.new ≡ c.old }
    ensures fits { (v : VectorTerm) (bit n slots modulus : ℕ) (es : Seq SNode) → IsPower c.old v bit width power → FoldsLow c.old v bit n low
        → 2 ^ bit + n ≤ slots → AllFit slots modulus es c.old → AllFit slots modulus es c.new }
{
    if !set {
        return Ok(low);
    }
    let folded = included(c, power, width, low)?;
    Ok(Some(folded))
}

/// The node of the sum of `len` consecutive slots of `v`, by doubling. Earlier nodes stand, and at most 36 are added.
pub fn fold_run(c: &mut Cons, v: NodeId, len: u32) -> Result<NodeId, Memory>
    requires within { v.0 < length c.old }
    requires some { 0 < len }
    requires most { len ≤ 512 }
    requires room { length c.old + 64 < 2 ^ 26 }
    ensures term { IfOk result (λ id. HasTerm c.new id.0 (fold (vector_at (vector_terms c.old) v) len)) }
    ensures stands { Extends 36 c.old c.new }
    ensures fits { (slots modulus : ℕ) (es : Seq SNode) → len ≤ slots → AllFit slots modulus es c.old → AllFit slots modulus es c.new }
{
    let mut power = v;
    let mut width: u16 = 1;
    let mut rest = len;
    let mut low = None;
    while rest > 1 {
        low = low_bit(c, power, width, low, rest % 2 == 1)?;
        power = beside(c, power, width, power)?;
        width *= 2;
        rest /= 2;
    }
    included(c, power, width, low)
}

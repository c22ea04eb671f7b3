ghost use Rattle.std.specs.Prelude.{◌≡◌, ℕ, ◌+◌, ◌^◌, ◌<◌, ◌≤◌, List as Seq, [], ◌++◌, length, true, OnOk, IfOk, slice_index_or};
ghost use Rattle.heco_written.specs.World.{World};
ghost use Rattle.heco_ir.specs.Values.{values, all_below, value_over, numbers, renamed, Rewrites, at_ids};

use crate::builder::{Builder, Ir};
use crate::dialect::{Dialect, NodeId};
use bumpalo::Bump;
use heco_nums::{List, Memory};
use std::alloc::Global;

/// A change of one node, which means what the node means. At most one node is pushed, and earlier nodes stand.
pub trait Rewrite<D: Dialect> {
    fn rewrite(&mut self, n: D::Node, out: &mut Builder<'_, D>) -> Result<NodeId, Memory>
        requires earlier { all_below (length out.old) (D.operands_of n) ≡ true }
        requires room { length out.old < 2 ^ 26 }
        ensures within { IfOk result (λ id. id.0 < length out.new) }
        ensures stands { OnOk result ((added : Seq D.Node) × (out.new ≡ out.old ++ added) × (length added ≤ 1)) }
        ensures means { IfOk result (λ id. (w : World)
            → slice_index_or (values D.operands_of D.value w out.new) id.0 [] ≡ value_over D.operands_of D.value w (values D.operands_of D.value w out.old) n) };
}

/// The node over other ids.
fn rename<D: Dialect>(ids: &[NodeId], n: D::Node) -> D::Node
    requires { all_below (length ids.now) (D.operands_of n) ≡ true }
    ensures operands { D.operands_of result ≡ renamed ids.now (D.operands_of n) }
    ensures value { (w : World) (vs : Seq (Seq ℕ)) → D.value w result vs ≡ D.value w n vs }
{
    let mut m = n;
    for k in 0..D::operands(n) {
        let old = D::operand(m, k);
        m = D::with_operand(m, k, ids[old.0 as usize]);
    }
    m
}

/// Each node of the IR, changed, in order; and where each one is.
fn rewrite_all<'b, D: Dialect, R: Rewrite<D>>(
    ir: &Ir<'_, D>,
    b: &'b Bump,
    r: &mut R,
) -> Result<(Builder<'b, D>, Vec<NodeId, &'b Bump>), Memory>
    ensures { IfOk result (λ x. Rewrites D.operands_of D.value ir.now.0 x.0 x.1.items) }
{
    let mut out = Builder::open(b);
    let mut ids = Vec::new(b);
    for i in 0..ir.len() {
        let n = rename::<D>(&ids, ir.node(NodeId(i)));
        let id = r.rewrite(n, &mut out)?;
        ids.push(id)?;
    }
    Ok((out, ids))
}

/// The IR with each node changed, in order, one call of `rewrite` for each. Every root means what it meant.
pub fn run_pass<'b, D: Dialect, R: Rewrite<D>>(
    alloc: Global,
    ir: &Ir<'_, D>,
    b: &'b Bump,
    r: &mut R,
) -> Result<Ir<'b, D>, Memory>
    ensures means { IfOk result (λ new. (w : World) →
        at_ids (values D.operands_of D.value w new.0) new.1
        ≡ at_ids (values D.operands_of D.value w ir.now.0) ir.now.1) }
    ensures few { IfOk result (λ new. length new.0 ≤ length ir.now.0) }
{
    let (out, ids) = rewrite_all(ir, b, r)?;
    let mut roots = List::new(alloc);
    for root in ir.roots().as_slice() {
        roots.push(ids[root.0 as usize])?;
    }
    Ok(out.finish(roots))
}

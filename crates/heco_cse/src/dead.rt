ghost use Rattle.std.specs.Prelude.{◌≡◌, ◌⊎◌, ◌↔◌, ℕ, ◌≤◌, List as Seq, length, true, IfOk, Some, slice_get, Contains};
ghost use Rattle.heco_ir.specs.declared.scalar.SNode.{SNode};
ghost use Rattle.heco_ir.specs.Ranges.{AllFit, gates_of_nodes};
ghost use Rattle.heco_ir.specs.declared.vector.VNode.{VNode};
ghost use Rattle.heco_ir.specs.Values.{all_below, all_earlier};
ghost use Rattle.heco_ir.specs.Vectors.{vector_operands};
ghost use Rattle.heco_ir.specs.Used.{EachOnce, AllUsed};
ghost use Rattle.heco_ir.specs.Terms.{terms_at};
ghost use Rattle.heco_cse.specs.Dead.{KeepsUsed, Marks, Copies, over_ids};

use bumpalo::Bump;
use heco_ir::{Builder, Dialect, Ir, NodeId, VNode, Vector};
use heco_nums::{List, Memory};
use std::alloc::Global;

/// Marks the operands of a node.
fn mark_operands(marks: &mut Vec<bool>, n: VNode)
    requires { all_below (length marks.old.items) (vector_operands n) ≡ true }
    ensures marked { (j : ℕ) → (slice_get marks.new.items j ≡ Some true) ↔ ((slice_get marks.old.items j ≡ Some true) ⊎ Contains (vector_operands n) j) }
    ensures count { length marks.new.items ≡ length marks.old.items }
{
    for k in 0..Vector::operands(n) {
        marks[Vector::operand(n, k).0 as usize] = true;
    }
}

/// Which nodes the roots use.
fn marks_of(alloc: Global, ir: &Ir<'_, Vector>) -> Result<Vec<bool>, Memory>
    ensures { IfOk result (λ marks. Marks ir.now.0 ir.now.1 0 marks.items) }
{
    let mut marks = vec![in alloc; false; ir.len() as usize]?;
    for root in ir.roots().as_slice() {
        marks[root.0 as usize] = true;
    }
    let mut i = ir.len();
    while i > 0 {
        i -= 1;
        if marks[i as usize] {
            mark_operands(&mut marks, ir.node(NodeId(i)));
        }
    }
    Ok(marks)
}

/// The node over other ids.
fn renamed(ids: &[NodeId], n: VNode) -> VNode
    requires { all_below (length ids.now) (vector_operands n) ≡ true }
    ensures { result ≡ over_ids ids.now n }
{
    match n {
        VNode::Input { a } => VNode::Input { a },
        VNode::Neg { v } => VNode::Neg {
            v: ids[v.0 as usize],
        },
        VNode::Add { v, w } => VNode::Add {
            v: ids[v.0 as usize],
            w: ids[w.0 as usize],
        },
        VNode::Mul { v, w } => VNode::Mul {
            v: ids[v.0 as usize],
            w: ids[w.0 as usize],
        },
        VNode::Scale { c, v } => VNode::Scale {
            c,
            v: ids[v.0 as usize],
        },
        VNode::Shift { c, v } => VNode::Shift {
            c,
            v: ids[v.0 as usize],
        },
        VNode::Turn { r, v } => VNode::Turn {
            r,
            v: ids[v.0 as usize],
        },
    }
}

/// The nodes that are marked, in order, and where each one is.
fn marked_nodes<'b>(
    alloc: Global,
    ir: &Ir<'_, Vector>,
    marks: &[bool],
    b: &'b Bump,
) -> Result<(Builder<'b, Vector>, Vec<NodeId>), Memory>
    requires { Marks ir.now.0 ir.now.1 0 marks.now }
    ensures copies { IfOk result (λ r. Copies ir.now.0 marks.now (length ir.now.0) r.0 r.1.items) }
    ensures earlier { all_earlier vector_operands 0 ir.now.0 ≡ true }
{
    let mut out = Builder::<Vector>::open(b);
    let mut ids = Vec::new(alloc);
    for i in 0..ir.len() {
        let id = if marks[i as usize] {
            out.push(renamed(&ids, ir.node(NodeId(i))))?
        } else {
            NodeId(0)
        };
        ids.push(id)?;
    }
    Ok((out, ids))
}

/// Exactly the nodes that roots use, in order; the roots keep their order and their terms.
pub fn drop_dead<'b>(
    alloc: Global,
    ir: &Ir<'_, Vector>,
    b: &'b Bump,
) -> Result<Ir<'b, Vector>, Memory>
    ensures kept { IfOk result (λ new. KeepsUsed ir.now.0 ir.now.1 new.0 new.1) }
    ensures terms { IfOk result (λ new. terms_at new.0 new.1 ≡ terms_at ir.now.0 ir.now.1) }
    ensures used { IfOk result (λ new. AllUsed vector_operands new.0 new.1) }
    ensures once { EachOnce ir.now.0 → IfOk result (λ new. EachOnce new.0) }
    ensures gates { IfOk result (λ new. gates_of_nodes new.0 ≤ gates_of_nodes ir.now.0) }
    ensures fits { (slots modulus : ℕ) (es : Seq SNode) → AllFit slots modulus es ir.now.0 → IfOk result (λ new. AllFit slots modulus es new.0) }
{
    let marks = marks_of(alloc, ir)?;
    let (out, ids) = marked_nodes(alloc, ir, &marks, b)?;
    let mut roots = List::new(alloc);
    for root in ir.roots().as_slice() {
        roots.push(ids[root.0 as usize])?;
    }
    Ok(out.finish(roots))
}

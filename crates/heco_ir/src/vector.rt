ghost use Rattle.std.specs.Prelude.{◌≡◌, ℕ, ◌<◌, List as Seq, length, map, true, slice_index_or};
ghost use Rattle.heco_written.specs.VectorTerm.{Input};
ghost use Rattle.heco_ir.specs.Used.{EachOnce};
ghost use Rattle.heco_written.specs.World.{World};
ghost use Rattle.heco_ir.specs.declared.vector.VNode.{VNode};
ghost use Rattle.heco_ir.specs.Values.{values, all_earlier};
ghost use Rattle.heco_ir.specs.Vectors.{vector_operands, vector_value, vector_slots, SameVectorOperation};
ghost use Rattle.heco_ir.specs.Terms.{vector_terms};

use crate::dialect::{Dialect, NodeId};

/// An operation on vectors of slots: input `a`, and slot by slot a negation, a sum, a product, a multiple by `c`, a
/// constant `c` added; `Turn` brings to each slot what is `r` slots further on.
#[derive(Clone, Copy, Debug, PartialEq, Eq, Hash)]
pub enum VNode {
    Input { a: u32 },
    Neg { v: NodeId },
    Add { v: NodeId, w: NodeId },
    Mul { v: NodeId, w: NodeId },
    Scale { c: u32, v: NodeId },
    Shift { c: u32, v: NodeId },
    Turn { r: u16, v: NodeId },
}

/// Vectors of slots. The value of a node is the list of its slots modulo t.
#[derive(Drop)]
pub struct Vector;

impl Dialect for Vector {
    type Node = VNode;

    ghost operands_of = { vector_operands };

    ghost value = { vector_value };

    ghost same_operation = { SameVectorOperation };

    fn operands(n: VNode) -> u32 {
        match n {
            VNode::Input { .. } => 0,
            VNode::Add { .. } => 2,
            VNode::Mul { .. } => 2,
            VNode::Neg { .. } => 1,
            VNode::Scale { .. } => 1,
            VNode::Shift { .. } => 1,
            VNode::Turn { .. } => 1,
        }
    }

    fn operand(n: VNode, i: u32) -> NodeId {
        match n {
            VNode::Input { .. } => unreachable!(),
            VNode::Add { v, w } => { if i == 0 { v } else { w } }
            VNode::Mul { v, w } => { if i == 0 { v } else { w } }
            VNode::Neg { v } => v,
            VNode::Scale { v, .. } => v,
            VNode::Shift { v, .. } => v,
            VNode::Turn { v, .. } => v,
        }
    }

    fn with_operand(n: VNode, i: u32, to: NodeId) -> VNode {
        match n {
            VNode::Input { .. } => unreachable!(),
            VNode::Add { v, w } => {
                if i == 0 {
                    VNode::Add { v: to, w }
                } else {
                    VNode::Add { v, w: to }
                }
            }
            VNode::Mul { v, w } => {
                if i == 0 {
                    VNode::Mul { v: to, w }
                } else {
                    VNode::Mul { v, w: to }
                }
            }
            VNode::Neg { .. } => VNode::Neg { v: to },
            VNode::Scale { c, .. } => VNode::Scale { c, v: to },
            VNode::Shift { c, .. } => VNode::Shift { c, v: to },
            VNode::Turn { r, .. } => VNode::Turn { r, v: to },
        }
    }
}

/// The value of a vector node is the slots of its term.
#[tactic(auto, using(crate::proofs::TermValues::vector_values))]
pub fn vector_nodes_have_their_terms()
    ensures { (w : World) (ns : Seq VNode) → all_earlier vector_operands 0 ns ≡ true
        → values vector_operands vector_value w ns ≡ map (vector_slots w) (vector_terms ns) }
{}

/// Where no node stands twice, no two nodes have one term.
#[tactic(auto, using(crate::proofs::Unique::one_node))]
pub fn one_term_has_one_node()
    ensures { (ns : Seq VNode) (i j : ℕ) → all_earlier vector_operands 0 ns ≡ true → EachOnce ns → i < length ns → j < length ns
        → slice_index_or (vector_terms ns) i (Input 0) ≡ slice_index_or (vector_terms ns) j (Input 0) → i ≡ j }
{}

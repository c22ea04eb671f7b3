ghost use Rattle.std.specs.Prelude.{◌≡◌, ℕ, List as Seq, [], ◌∷◌, map, true};
ghost use Rattle.heco_written.specs.World.{World};
ghost use Rattle.heco_written.specs.ScalarTerm.{scalar_value};
ghost use Rattle.heco_ir.specs.declared.scalar.SNode.{SNode};
ghost use Rattle.heco_ir.specs.Values.{values, all_earlier};
ghost use Rattle.heco_ir.specs.Scalars.{scalar_operands, scalar_node_value, SameScalarOperation};
ghost use Rattle.heco_ir.specs.Terms.{scalar_terms};

use crate::dialect::{Dialect, NodeId};

/// An operation on numbers modulo t: a number, element `i` of input `a`, a sum, a product, a negation.
#[derive(Clone, Copy, Debug, PartialEq, Eq, Hash)]
pub enum SNode {
    Num { c: u32 },
    Elem { a: u32, i: u32 },
    Sum { x: NodeId, y: NodeId },
    Prod { x: NodeId, y: NodeId },
    Neg { x: NodeId },
}

/// Numbers modulo t. The value of a node is a list of one number.
#[derive(Drop)]
pub struct Scalar;

impl Dialect for Scalar {
    type Node = SNode;

    ghost operands_of = { scalar_operands };

    ghost value = { scalar_node_value };

    ghost same_operation = { SameScalarOperation };

    fn operands(n: SNode) -> u32 {
        match n {
            SNode::Num { .. } => 0,
            SNode::Elem { .. } => 0,
            SNode::Sum { .. } => 2,
            SNode::Prod { .. } => 2,
            SNode::Neg { .. } => 1,
        }
    }

    fn operand(n: SNode, i: u32) -> NodeId {
        match n {
            SNode::Num { .. } => unreachable!(),
            SNode::Elem { .. } => unreachable!(),
            SNode::Sum { x, y } => { if i == 0 { x } else { y } }
            SNode::Prod { x, y } => { if i == 0 { x } else { y } }
            SNode::Neg { x } => x,
        }
    }

    fn with_operand(n: SNode, i: u32, to: NodeId) -> SNode {
        match n {
            SNode::Num { .. } => unreachable!(),
            SNode::Elem { .. } => unreachable!(),
            SNode::Sum { x, y } => {
                if i == 0 {
                    SNode::Sum { x: to, y }
                } else {
                    SNode::Sum { x, y: to }
                }
            }
            SNode::Prod { x, y } => {
                if i == 0 {
                    SNode::Prod { x: to, y }
                } else {
                    SNode::Prod { x, y: to }
                }
            }
            SNode::Neg { .. } => SNode::Neg { x: to },
        }
    }
}

/// The value of a scalar node is the value of its term.
#[tactic(auto, using(crate::proofs::TermValues::scalar_values))]
pub fn scalar_nodes_have_their_terms()
    ensures { (w : World) (ns : Seq SNode) → all_earlier scalar_operands 0 ns ≡ true
        → values scalar_operands scalar_node_value w ns ≡ map (λ x. scalar_value w x ∷ []) (scalar_terms ns) }
{}

ghost use Rattle.std.specs.Prelude.{◌≡◌, ℕ, ◌<◌, List, length, slice_index, slice_set};
ghost use Rattle.heco_written.specs.World.{World};

/// The number of a node, from 0.
#[derive(Clone, Copy, Debug, PartialEq, Eq, Hash)]
pub struct NodeId(pub u32);

/// The kinds of nodes of an IR, and what they mean.
pub trait Dialect {
    type Node: Copy;

    // the numbers of its operands, in order
    ghost operands_of: { Self.Node → List ℕ };

    // what a node holds in a world, from what its operands hold
    ghost value: { World → Self.Node → List (List ℕ) → List ℕ };

    // whether two nodes are the same operation, with the same constants, on whatever operands
    ghost same_operation: { Self.Node → Self.Node → Type 0 };

    /// How many operands.
    fn operands(n: Self::Node) -> u32
        ensures { result ≡ length (operands_of n) };

    /// Operand `i`.
    fn operand(n: Self::Node, i: u32) -> NodeId
        requires { i < length (operands_of n) }
        ensures { result.0 ≡ slice_index (operands_of n) i };

    /// The node with that one operand changed.
    fn with_operand(n: Self::Node, i: u32, to: NodeId) -> Self::Node
        requires { i < length (operands_of n) }
        ensures operation { same_operation n result }
        ensures operands { operands_of result ≡ slice_set (operands_of n) i to.0 }
        ensures value { (w : World) (vs : List (List ℕ)) → value w result vs ≡ value w n vs };
}

ghost use Rattle.std.specs.Prelude.{◌≡◌, ℕ, List as Seq, length, true};
ghost use Rattle.heco_ir.specs.declared.vector.VNode.{VNode};
ghost use Rattle.heco_ir.specs.Vectors.{vector_operands};
ghost use Rattle.heco_ir.specs.Values.{all_below, all_earlier};
ghost use Rattle.heco_ir.specs.Used.{EachOnce, AllUsed};
ghost use Rattle.heco_ir.specs.Terms.{vector_terms, terms_at};
ghost use Rattle.heco_ir.specs.Gates.{Agrees};
ghost use Rattle.heco_ir.specs.Ranges.{gates_of_nodes};
ghost use Rattle.heco_written.specs.Cost.{gates};
ghost use Rattle.std.specs.List.{sum_by};

/// Vector nodes that stand once each, and are each used by a root, make exactly the gates that the roots' terms cost,
/// with early and with late relinearisation. They need relinearisation exactly where the cost has a product, and the
/// amounts of turns that it has.
#[tactic(auto, using(crate::proofs::Counted::agreement))]
pub fn nodes_have_the_cost()
    ensures { (ns : Seq VNode) (roots : Seq ℕ) → all_earlier vector_operands 0 ns ≡ true → all_below (length ns) roots ≡ true → EachOnce ns
        → AllUsed vector_operands ns roots → Agrees (vector_terms ns) (terms_at ns roots) }
{}

/// The gates of vector nodes are those of their terms.
#[tactic(auto, using(crate::proofs::NodeGates::node_gates_law))]
pub fn nodes_have_the_gates_of_their_terms()
    ensures { (ns : Seq VNode) → gates_of_nodes ns ≡ sum_by gates (vector_terms ns) }
{}

ghost use Rattle.heco_ir.specs.declared.vector.VNode.{VNode};
ghost use Rattle.heco_ir.specs.declared.scalar.SNode.{SNode};
ghost use Rattle.heco_ir.specs.Ranges.{Fits, AllFit};
ghost use Rattle.std.specs.Prelude.{◌≡◌, ◌==◌, ◌⊎◌, ℕ, ◌^◌, ◌<◌, ◌≤◌, List as Seq, [], ◌∷◌, ◌++◌, length, IfOk, OnOk, OnErr, slice_get, Some, Contains, true};
ghost use Rattle.heco_ir.specs.Values.{all_below, all_earlier};
ghost use Rattle.heco_ir.specs.Vectors.{vector_operands};
ghost use Rattle.heco_ir.specs.Terms.{vector_terms, vector_term_over, HasTerm, Extends, weight};
ghost use Rattle.heco_ir.specs.Used.{EachOnce};

use heco_ir::{NodeId, VNode};
use heco_nums::Memory;
use indexmap::IndexSet;
use std::alloc::Global;
use std::marker::Model;

/// Nodes, each once, in the order in which they came.
#[derive(Drop)]
pub struct Cons {
    set: IndexSet<VNode>,
}

impl Model for Cons {
    ghost use Rattle.std.specs.Prelude.{List as Seq, ◌≡◌, true, ◌≤◌, ◌^◌, length};
    ghost use Rattle.heco_ir.specs.declared.vector.VNode.{VNode};
    ghost use Rattle.heco_ir.specs.Values.{all_earlier};
    ghost use Rattle.heco_ir.specs.Vectors.{vector_operands};
    ghost use Rattle.heco_ir.specs.Used.{EachOnce};

    ghost Value = { Seq VNode };

    ghost view = { λ c. c.set.keys };

    ghost invariant = { λ c. EachOnce c.set.keys × (all_earlier vector_operands 0 c.set.keys ≡ true) × (length c.set.keys ≤ 2 ^ 26) };
}

impl Cons {
    /// No nodes. It takes no memory.
    pub fn open(alloc: Global) -> Cons
        ensures { result ≡ [] }
    {
        Cons {
            set: IndexSet::new(alloc),
        }
    }

    /// The number of nodes.
    pub fn len(&self) -> u32
        ensures value { result ≡ length self.now }
        ensures once { EachOnce self.now }
        ensures room { length self.now ≤ 2 ^ 26 }
        ensures earlier { all_earlier vector_operands 0 self.now ≡ true }
    {
        self.set.len() as u32
    }

    pub fn is_empty(&self) -> bool
        ensures { result ≡ (length self.now == 0) }
    {
        self.set.is_empty()
    }

    pub fn get(&self, id: NodeId) -> VNode
        requires { id.0 < length self.now }
        ensures { slice_get self.now id.0 ≡ Some result }
    {
        self.set.as_slice()[id.0 as usize]
    }

    /// The id of the node: a known one's is its place, a new one's is the number of nodes before it.
    pub fn put(&mut self, n: VNode) -> Result<NodeId, Memory>
        requires earlier { all_below (length self.old) (vector_operands n) ≡ true }
        requires room { length self.old < 2 ^ 26 }
        ensures id { IfOk result (λ id. slice_get self.new id.0 ≡ Some n) }
        ensures known { OnOk result (Contains self.old n → self.new ≡ self.old) }
        ensures new { OnOk result ((Contains self.old n → ⊥) → self.new ≡ self.old ++ n ∷ []) }
        ensures err { OnErr result (self.new ≡ self.old) }

        // what follows from these
        ensures adds { (self.new ≡ self.old) ⊎ (self.new ≡ self.old ++ n ∷ []) }
        ensures term { IfOk result (λ id. HasTerm self.new id.0 (vector_term_over (vector_terms self.old) n)) }
        ensures stands { Extends (weight n) self.old self.new }
        ensures fits { (slots modulus : ℕ) (es : Seq SNode) → Fits slots modulus es n → AllFit slots modulus es self.old → AllFit slots modulus es self.new }
    {
        node_equality();
        let (at, _) = match self.set.insert_full(n) {
            Ok(found) => found,
            Err(_) => return Err(Memory),
        };
        Ok(NodeId(at as u32))
    }
}

/// Nodes are equal exactly where they are one.
fn node_equality()
    ensures same { (a b : VNode) → ⟦<VNode as PartialEq>⟧.eq a b ≡ true → a ≡ b }
    ensures itself { (a : VNode) → ⟦<VNode as PartialEq>⟧.eq a a ≡ true }
{}

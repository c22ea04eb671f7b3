ghost use Rattle.std.specs.Prelude.{◌≡◌, ◌==◌, ◌+◌, ◌^◌, ◌<◌, ◌≤◌, [], ◌∷◌, ◌++◌, length, true, OnOk, IfOk, OnErr, slice_get};
ghost use Rattle.heco_ir.specs.Values.{all_below, all_earlier, numbers};

use crate::dialect::{Dialect, NodeId};
use bumpalo::Bump;
use heco_nums::{List, Memory};
use std::marker::Model;

/// A growing list of nodes in an arena, each over earlier ones.
#[derive(Drop)]
pub struct Builder<'b, D: Dialect> {
    nodes: Vec<D::Node, &'b Bump>,
}

impl<'b, D: Dialect> Model for Builder<'b, D> {
    ghost use Rattle.std.specs.Prelude.{List as Seq, ◌≡◌, true, ◌≤◌, ◌^◌, length};
    ghost use Rattle.std.specs.Coded.{coded_list};
    ghost use Rattle.heco_ir.specs.Values.{all_earlier};

    ghost Value = { Seq D.Node };

    ghost coded = { coded_list D.Node.code };

    ghost view = { λ b. b.nodes.items };

    ghost invariant = { λ b. (all_earlier D.operands_of 0 b.nodes.items ≡ true) × (length b.nodes.items ≤ 2 ^ 26) };
}

/// Nodes, each over earlier ones, and the roots, which are numbers of nodes.
#[derive(Drop)]
pub struct Ir<'b, D: Dialect> {
    nodes: Vec<D::Node, &'b Bump>,
    roots: List<NodeId>,
}

impl<'b, D: Dialect> Model for Ir<'b, D> {
    ghost use Rattle.std.specs.Prelude.{List as Seq, ◌≡◌, true, ◌≤◌, ◌^◌, length, ℕ};
    ghost use Rattle.std.specs.Coded.{coded_list, coded×, coded_ℕ};
    ghost use Rattle.heco_ir.specs.Values.{all_earlier, all_below, numbers};

    ghost Value = { Seq D.Node × Seq ℕ };

    ghost coded = { coded× (coded_list D.Node.code) (coded_list coded_ℕ) };

    ghost view = { λ ir. (ir.nodes.items, numbers ir.roots) };

    ghost invariant = { λ ir. (all_earlier D.operands_of 0 ir.nodes.items ≡ true) × (length ir.nodes.items ≤ 2 ^ 26) × (all_below (length ir.nodes.items) (numbers ir.roots) ≡ true) };
}

impl<'b, D: Dialect> Builder<'b, D> {
    pub fn open(b: &'b Bump) -> Builder<'b, D>
        ensures { result ≡ [] }
    {
        Builder { nodes: Vec::new(b) }
    }

    /// The number of nodes.
    pub fn len(&self) -> u32
        ensures { result ≡ length self.now }
    {
        self.nodes.len() as u32
    }

    pub fn is_empty(&self) -> bool
        ensures { result ≡ (length self.now == 0) }
    {
        self.nodes.is_empty()
    }

    /// Puts a node behind the others. Its number is the number of nodes before it.
    #[tactic(auto, using(crate::proofs::Earlier::pushed))]
    pub fn push(&mut self, n: D::Node) -> Result<NodeId, Memory>
        requires earlier { all_below (length self.old) (D.operands_of n) ≡ true }
        requires room { length self.old < 2 ^ 26 }
        ensures id { IfOk result (λ id. id.0 ≡ length self.old) }
        ensures grown { OnOk result (self.new ≡ self.old ++ n ∷ []) }
        ensures err { OnErr result (self.new ≡ self.old) }
    {
        let id = self.nodes.len() as u32;
        match self.nodes.push(n) {
            Ok(()) => Ok(NodeId(id)),
            Err(_) => Err(Memory),
        }
    }

    /// The nodes with these roots. It takes no memory.
    pub fn finish(self, roots: List<NodeId>) -> Ir<'b, D>
        requires { all_below (length self) (numbers roots) ≡ true }
        ensures { result ≡ (self.entry, numbers roots) }
    {
        let Builder { nodes } = self;
        Ir { nodes, roots }
    }
}

impl<'b, D: Dialect> Ir<'b, D> {
    /// The number of nodes.
    pub fn len(&self) -> u32
        ensures value { result ≡ length self.now.0 }
        ensures earlier { all_earlier D.operands_of 0 self.now.0 ≡ true }
        ensures room { length self.now.0 ≤ 2 ^ 26 }
        ensures inside { all_below (length self.now.0) self.now.1 ≡ true }
    {
        self.nodes.len() as u32
    }

    pub fn is_empty(&self) -> bool
        ensures { result ≡ (length self.now.0 == 0) }
    {
        self.nodes.is_empty()
    }

    pub fn roots(&self) -> &List<NodeId>
        ensures value { numbers result.now ≡ self.now.1 }
        ensures inside { all_below (length self.now.0) self.now.1 ≡ true }
    {
        &self.roots
    }

    pub fn node(&self, id: NodeId) -> D::Node
        requires { id.0 < length self.now.0 }
        ensures { slice_get self.now.0 id.0 ≡ Some result }
    {
        self.nodes[id.0 as usize]
    }
}

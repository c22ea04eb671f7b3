ghost use Rattle.std.specs.Prelude.{◌≡◌, ℕ, ◌+◌, ◌*◌, ◌^◌, ◌<◌, ◌≤◌, List as Seq, [], ◌∷◌, length, IfOk, OnOk, true, Contains};
ghost use Rattle.heco_written.specs.ScalarTerm.{ScalarTerm, Element, Product, Negation};
ghost use Rattle.heco_ir.specs.declared.scalar.SNode.{SNode};
ghost use Rattle.heco_ir.specs.Ranges.{AllFit, gates_of_nodes};
ghost use Rattle.heco_ir.specs.Terms.{Extends, scalar_term_over, scalar_terms};
ghost use Rattle.heco_ir.specs.Scalars.{scalar_operands};
ghost use Rattle.heco_ir.specs.Values.{all_below};
ghost use Rattle.heco_written.specs.Proper.{IsProper};
ghost use Rattle.heco_batch.specs.inside.Homes.{IsNoZero};
ghost use Rattle.heco_batch.specs.inside.Written.{WrittenIs};
ghost use Rattle.heco_ir.specs.Unrolled.{AllMade, AllElementsBelow, operation, operations};
ghost use Rattle.heco_batch.specs.Table.{TableIs};

use crate::batcher::Batcher;
use crate::home::NodeHome;
use crate::place::NodeSlot;
use crate::written::NodeWritten;
use heco_cse::Cons;
use heco_ir::{Ir, NodeId, SNode, Scalar, VNode};
use heco_nums::Memory;
use std::alloc::Global;

impl Batcher {
    /// The written form of an element.
    fn element(self, c: &mut Cons, a: u32, i: u32) -> Result<NodeWritten, Memory>
        requires slot { i < self.slots }
        requires room { length c.old < 2 ^ 26 }
        ensures written { IfOk result (λ d. WrittenIs c.new self.slots self.modulus d (Element a i)) }
        ensures stands { Extends 1 c.old c.new }
        ensures free { gates_of_nodes c.new ≡ gates_of_nodes c.old }
        ensures fits { (es : Seq SNode) → Contains es (SNode.Elem a i) → AllFit self.slots self.modulus es c.old → AllFit self.slots self.modulus es c.new }
    {
        let node = c.put(VNode::Input { a })?;
        Ok(NodeWritten {
            home: NodeHome::At(NodeSlot {
                node,
                slot: i as u16,
            }),
            members: None,
        })
    }

    /// The written form of a product.
    fn product(self, c: &mut Cons, x: NodeWritten, y: NodeWritten) -> Result<NodeWritten, Memory>
        requires left { (t : ScalarTerm) × WrittenIs c.old self.slots self.modulus x t }
        requires right { (t : ScalarTerm) × WrittenIs c.old self.slots self.modulus y t }
        requires left_factor { IsNoZero x.home }
        requires right_factor { IsNoZero y.home }
        requires room { length c.old + 2 ≤ 2 ^ 26 }
        ensures written { (t u : ScalarTerm) → WrittenIs c.old self.slots self.modulus x t → WrittenIs c.old self.slots self.modulus y u
            → IfOk result (λ d. WrittenIs c.new self.slots self.modulus d (Product t u)) }
        ensures stands { Extends 3 c.old c.new }
        ensures fits { (es : Seq SNode) → AllFit self.slots self.modulus es c.old → AllFit self.slots self.modulus es c.new }
    {
        let home = self.multiplied(c, x.home, y.home)?;
        Ok(NodeWritten {
            home,
            members: None,
        })
    }

    /// The written form of a negation.
    fn negation(self, c: &mut Cons, x: NodeWritten) -> Result<NodeWritten, Memory>
        requires of { (t : ScalarTerm) × WrittenIs c.old self.slots self.modulus x t }
        requires room { length c.old + 1 ≤ 2 ^ 26 }
        ensures written { (t : ScalarTerm) → WrittenIs c.old self.slots self.modulus x t → IfOk result (λ d. WrittenIs c.new self.slots self.modulus d (Negation t)) }
        ensures stands { Extends 1 c.old c.new }
        ensures fits { (es : Seq SNode) → AllFit self.slots self.modulus es c.old → AllFit self.slots self.modulus es c.new }
    {
        let home = self.negated(c, x.home)?;
        Ok(NodeWritten {
            home,
            members: None,
        })
    }

    /// The written form of a node over those of the nodes before it.
    fn node(self, c: &mut Cons, table: &[NodeWritten], n: SNode) -> Result<NodeWritten, Memory>
        requires operands { all_below (length table.now) (scalar_operands n) ≡ true }
        requires table { (ts : Seq ScalarTerm) × TableIs c.old self.slots self.modulus table.now ts × IsProper self.modulus self.slots (scalar_term_over ts n) }
        requires room { length c.old + 64 < 2 ^ 26 }
        ensures written { (ts : Seq ScalarTerm) → TableIs c.old self.slots self.modulus table.now ts → IfOk result (λ d. WrittenIs c.new self.slots self.modulus d (scalar_term_over ts n)) }
        ensures stands { Extends 39 c.old c.new }
        ensures gates { gates_of_nodes c.new ≤ gates_of_nodes c.old + 39 * operation n }
        ensures fits { (es : Seq SNode) → Contains es n → AllFit self.slots self.modulus es c.old → AllFit self.slots self.modulus es c.new }
    {
        match n {
            SNode::Num { c: k } => Ok(NodeWritten {
                home: NodeHome::Number(k),
                members: None,
            }),
            SNode::Elem { a, i } => self.element(c, a, i),
            SNode::Sum { x, y } => self.summed(c, table[x.0 as usize], table[y.0 as usize]),
            SNode::Prod { x, y } => self.product(c, table[x.0 as usize], table[y.0 as usize]),
            SNode::Neg { x } => self.negation(c, table[x.0 as usize]),
        }
    }

    /// The written forms of all nodes, in order.
    pub fn table_of(
        self,
        alloc: Global,
        c: &mut Cons,
        ir: &Ir<'_, Scalar>,
    ) -> Result<Vec<NodeWritten>, Memory>
        requires empty { c.old ≡ [] }
        requires made { AllMade self.modulus self.slots (scalar_terms ir.now.0) }
        requires inputs { AllElementsBelow 256 ir.now.0 }
        requires operations { operations ir.now.0 ≤ 524288 }
        ensures table { IfOk result (λ table. TableIs c.new self.slots self.modulus table.items (scalar_terms ir.now.0)) }
        ensures gates { OnOk result (gates_of_nodes c.new ≤ 39 * operations ir.now.0) }
        ensures fits { OnOk result (AllFit self.slots self.modulus ir.now.0 c.new) }
    {
        let mut table = Vec::new(alloc);
        for i in 0..ir.len() {
            let _valid = c.len();
            let d = self.node(c, &table, ir.node(NodeId(i)))?;
            table.push(d)?;
        }
        Ok(table)
    }
}

ghost use Rattle.std.specs.Prelude.{◌≡◌, ℕ, ◌+◌, ◌^◌, ◌%◌, ◌<◌, ◌≤◌, length, List as Seq, IfOk, Some};
ghost use Rattle.heco_written.specs.WrittenForm.{distance, beside, folded, continues as continues_run};
ghost use Rattle.heco_written.specs.VectorTerm.{turned_by};
ghost use Rattle.heco_ir.specs.declared.scalar.SNode.{SNode};
ghost use Rattle.heco_ir.specs.Ranges.{AllFit};
ghost use Rattle.heco_ir.specs.Terms.{HasTerm, Extends};
ghost use Rattle.heco_batch.specs.inside.Places.{place_at, run_at, place_at_option, PlaceIs, OptionWithin};

use crate::batcher::Batcher;
use heco_cse::Cons;
use heco_fold::fold_run;
use heco_ir::{NodeId, VNode};
use heco_nums::Memory;

/// One slot of a node.
#[derive(Clone, Copy, Debug)]
pub struct NodeSlot {
    pub node: NodeId,
    pub slot: u16,
}

/// Consecutive slots of a node.
#[derive(Clone, Copy, Debug)]
pub struct NodeRun {
    pub node: NodeId,
    pub slot: u16,
    pub size: u16,
}

impl Batcher {
    /// The node of `from`, turned to the slot of `to`.
    pub fn align(self, c: &mut Cons, to: u16, from: NodeSlot) -> Result<NodeId, Memory>
        requires within { from.node.0 < length c.old }
        requires to { to < self.slots }
        requires from { from.slot < self.slots }
        requires room { length c.old + 1 ≤ 2 ^ 26 }
        ensures term { IfOk result (λ id. HasTerm c.new id.0 (turned_by (distance self.slots to from.slot) (place_at c.old from).vector)) }
        ensures stands { Extends 1 c.old c.new }
        ensures fits { (modulus : ℕ) (es : Seq SNode) → AllFit self.slots modulus es c.old → AllFit self.slots modulus es c.new }
    {
        let r = (from.slot + (self.slots - to)) % self.slots;
        if r == 0 {
            Ok(from.node)
        } else {
            c.put(VNode::Turn { r, v: from.node })
        }
    }

    /// The sum of `p` and what is summed already, at the slot of the latter.
    pub fn add_place(
        self,
        c: &mut Cons,
        head: Option<NodeSlot>,
        p: NodeSlot,
    ) -> Result<NodeSlot, Memory>
        requires head { OptionWithin (length c.old) self.slots head }
        requires within { p.node.0 < length c.old }
        requires slot { p.slot < self.slots }
        requires room { length c.old + 2 ≤ 2 ^ 26 }
        ensures place { IfOk result (λ d. PlaceIs c.new d (beside self.slots (place_at_option c.old head) (place_at c.old p))) }
        ensures stands { Extends 2 c.old c.new }
        ensures fits { (modulus : ℕ) (es : Seq SNode) → AllFit self.slots modulus es c.old → AllFit self.slots modulus es c.new }
    {
        let head = match head {
            None => return Ok(p),
            Some(head) => head,
        };
        let aligned = self.align(c, head.slot, p)?;
        let node = c.put(VNode::Add {
            v: head.node,
            w: aligned,
        })?;
        Ok(NodeSlot {
            node,
            slot: head.slot,
        })
    }

    /// The sum of a run and what is summed already.
    pub fn add_run(
        self,
        c: &mut Cons,
        head: Option<NodeSlot>,
        run: NodeRun,
    ) -> Result<NodeSlot, Memory>
        requires head { OptionWithin (length c.old) self.slots head }
        requires within { run.node.0 < length c.old }
        requires slot { run.slot < self.slots }
        requires some { 0 < run.size }
        requires size { run.size ≤ self.slots }
        requires room { length c.old + 64 < 2 ^ 26 }
        ensures place { IfOk result (λ d. PlaceIs c.new d (beside self.slots (place_at_option c.old head) (folded (run_at c.old run)))) }
        ensures stands { Extends 38 c.old c.new }
        ensures fits { (modulus : ℕ) (es : Seq SNode) → AllFit self.slots modulus es c.old → AllFit self.slots modulus es c.new }
    {
        let node = fold_run(c, run.node, run.size as u32)?;
        self.add_place(
            c,
            head,
            NodeSlot {
                node,
                slot: run.slot,
            },
        )
    }

    /// Whether the place is the slot after the run.
    pub fn continues(self, c: &Cons, run: NodeRun, p: NodeSlot) -> bool
        requires run { run.node.0 < length c.now }
        requires within { p.node.0 < length c.now }
        requires slot { run.slot < self.slots }
        requires size { run.size ≤ self.slots }
        requires room { length c.now < 2 ^ 26 }
        ensures { result ≡ continues_run self.slots (run_at c.now run) (place_at c.now p) }
    {
        let _valid = c.len();
        run.node.0 == p.node.0
            && p.slot == (run.slot + run.size) % self.slots
            && run.size < self.slots
    }
}

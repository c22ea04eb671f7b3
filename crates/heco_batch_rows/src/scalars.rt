ghost use Rattle.std.specs.Prelude.{◌≡◌, true};
ghost use Rattle.heco_batch.specs.Plain.{IsPlain, ArePlain};

use bumpalo::Bump;
use heco_batch::batch;
use heco_ir::{Builder, Homes, Ir, NodeId, SNode, Scalar, Vector};
use heco_nums::{List, Memory, Preset};
use std::alloc::Global;

/// Scalar nodes without numbers: elements in range, and operations on the nodes before.
#[derive(Drop)]
pub struct Scalars<'b> {
    pub nodes: Builder<'b, Scalar>,
    pub count: u32,
    pub p: Preset,
}

fn is_plain(slots: u32, count: u32, n: SNode) -> bool
    ensures { result ≡ true → IsPlain slots count n }
{
    match n {
        SNode::Num { .. } => false,
        SNode::Elem { a, i } => a < 256 && i < slots,
        SNode::Sum { x, y } => x.0 < count && y.0 < count,
        SNode::Prod { x, y } => x.0 < count && y.0 < count,
        SNode::Neg { x } => x.0 < count,
    }
}

impl<'b> Scalars<'b> {
    #[tactic(auto, using(heco_batch::proofs::PlainPushed::plain_none))]
    pub fn open(p: Preset, b: &'b Bump) -> Scalars<'b>
        ensures { ArePlain result.p.t result.p.slots result.count result.nodes }
    {
        Scalars {
            nodes: Builder::open(b),
            count: 0,
            p,
        }
    }

    pub fn push(&mut self, n: SNode) -> Result<NodeId, Memory>
        requires { ArePlain self.old.p.t self.old.p.slots self.old.count self.old.nodes }
        ensures { ArePlain self.new.p.t self.new.p.slots self.new.count self.new.nodes }
    {
        if !is_plain(self.p.slots, self.count, n) || self.count >= 524288 {
            return Err(Memory);
        }
        let id = self.nodes.push(n)?;
        self.count += 1;
        Ok(id)
    }

    pub fn batched<'c>(
        self,
        root: NodeId,
        alloc: Global,
        c: &'c Bump,
    ) -> Result<(Ir<'c, Vector>, Homes), Memory>
        requires { ArePlain self.p.t self.p.slots self.count self.nodes }
    {
        let Scalars { nodes, count, p } = self;
        if root.0 >= count {
            return Err(Memory);
        }
        let mut roots = List::new(alloc);
        roots.push(root)?;
        batch(alloc, &nodes.finish(roots), &p, c)
    }
}

ghost use Rattle.std.specs.Prelude.{◌≡◌, ℕ, ◌+◌, ◌*◌, ◌^◌, ◌<◌, ◌≤◌, List as Seq, ◌∷◌, [], ◌++◌, length, IfOk, OnOk, true};
ghost use Rattle.heco_written.specs.WrittenForm.{WrittenHome, vectors_of};
ghost use Rattle.heco_ir.specs.declared.vector.VNode.{VNode};
ghost use Rattle.heco_ir.specs.Ranges.{AllFit, gates_of_nodes};
ghost use Rattle.heco_ir.specs.Used.{EachOnce};
ghost use Rattle.heco_ir.specs.Values.{all_below, numbers};
ghost use Rattle.heco_ir.specs.Terms.{scalar_terms, terms_at};
ghost use Rattle.heco_batch.specs.inside.Homes.{HomeIs};
ghost use Rattle.heco_ir.specs.Unrolled.{AllMade, AllElementsBelow, operations, root_terms};
ghost use Rattle.heco_batch.specs.Table.{TableIs, HasInputs};
ghost use Rattle.heco_batch.specs.Roots.{RootsAre, written_homes, homes_from};
ghost use Rattle.heco_ir.specs.Homes.{AllHomesFit};

use crate::batcher::Batcher;
use crate::home::NodeHome;
use crate::place::NodeSlot;
use crate::written::NodeWritten;
use bumpalo::Bump;
use heco_cse::Cons;
use heco_ir::{Builder, Home, Homes, Ir, NodeId, Scalar, Vector};
use heco_nums::{List, Memory, Preset};
use std::alloc::Global;

/// The nodes of the set, in an arena.
fn nodes_of<'b>(c: &Cons, b: &'b Bump) -> Result<Builder<'b, Vector>, Memory>
    ensures { IfOk result (λ nodes. nodes ≡ c.now) }
{
    let mut nodes = Builder::<Vector>::open(b);
    for i in 0..c.len() {
        nodes.push(c.get(NodeId(i)))?;
    }
    Ok(nodes)
}

/// A place more, whose vector is the next root.
fn place_added(roots: &mut List<NodeId>, homes: &mut Homes, d: NodeSlot) -> Result<(), Memory>
    requires few { length roots.old < 2 ^ 20 }
    ensures roots { OnOk result (roots.new ≡ roots.old ++ d.node ∷ []) }
    ensures homes { OnOk result (homes.new ≡ homes.old ++ Home.At (length roots.old) d.slot ∷ []) }
    ensures few { length roots.new ≤ length roots.old + 1 }
{
    let root = roots.len() as u32;
    roots.push(d.node)?;
    homes.push(Home::At { root, slot: d.slot })
}

impl Batcher {
    /// One home more.
    fn home_added(
        self,
        roots: &mut List<NodeId>,
        homes: &mut Homes,
        h: NodeHome,
    ) -> Result<(), Memory>
        requires few { length roots.old < 2 ^ 20 }
        ensures roots { (nodes : Seq VNode) (hs : Seq WrittenHome) (k : WrittenHome) → RootsAre nodes self.slots self.modulus roots.old homes.old hs → HomeIs nodes self.slots self.modulus h k
            → OnOk result (RootsAre nodes self.slots self.modulus roots.new homes.new (hs ++ k ∷ [])) }
        ensures few { length roots.new ≤ length roots.old + 1 }
    {
        match h {
            NodeHome::Number(c) => homes.push(Home::Number(c)),
            NodeHome::At(d) => place_added(roots, homes, d),
        }
    }

    /// The roots and the homes of all roots of the scalar IR, in order.
    fn roots_of(
        self,
        alloc: Global,
        c: &Cons,
        ir: &Ir<'_, Scalar>,
        table: &[NodeWritten],
    ) -> Result<(List<NodeId>, Homes), Memory>
        requires table { TableIs c.now self.slots self.modulus table.now (scalar_terms ir.now.0) }
        requires few { length ir.now.1 ≤ 2 ^ 20 }
        ensures { IfOk result (λ r. RootsAre c.now self.slots self.modulus r.0 r.1 (written_homes self.modulus self.slots (root_terms ir.now.0 ir.now.1))) }
    {
        let mut roots = List::new(alloc);
        let mut homes = List::new(alloc);
        for root in ir.roots().as_slice() {
            self.home_added(&mut roots, &mut homes, table[root.0 as usize].home)?;
        }
        Ok((roots, homes))
    }
}

/// The scalar IR as vectors: one home for each root, in order, as its term's written form says, which is a number or a
/// slot of a root. Each vector is computed once.
pub fn batch<'b>(
    alloc: Global,
    ir: &Ir<'_, Scalar>,
    p: &Preset,
    b: &'b Bump,
) -> Result<(Ir<'b, Vector>, Homes), Memory>
    requires made { AllMade p.now.t p.now.slots (scalar_terms ir.now.0) }
    requires inputs { AllElementsBelow 256 ir.now.0 }
    requires operations { operations ir.now.0 ≤ 524288 }
    requires roots { length ir.now.1 ≤ 2 ^ 20 }
    ensures homes { IfOk result (λ r. r.1 ≡ homes_from 0 (written_homes p.now.t p.now.slots (root_terms ir.now.0 ir.now.1))) }
    ensures roots { IfOk result (λ r. terms_at r.0.0 r.0.1 ≡ vectors_of (written_homes p.now.t p.now.slots (root_terms ir.now.0 ir.now.1))) }
    ensures once { IfOk result (λ r. EachOnce r.0.0) }
    ensures gates { IfOk result (λ r. gates_of_nodes r.0.0 ≤ 39 * operations ir.now.0) }
    ensures fits { IfOk result (λ r. AllFit p.now.slots p.now.t ir.now.0 r.0.0) }
    ensures elements { IfOk result (λ r. HasInputs ir.now.0 r.0.0) }
    ensures homes_fit { IfOk result (λ r. AllHomesFit p.now.slots p.now.t r.1) }
{
    let mut c = Cons::open(alloc);
    let batcher = Batcher::of(p);
    let table = batcher.table_of(alloc, &mut c, ir)?;
    let nodes = nodes_of(&c, b)?;
    let (roots, homes) = batcher.roots_of(alloc, &c, ir, &table)?;
    let _valid = c.len();
    Ok((nodes.finish(roots), homes))
}

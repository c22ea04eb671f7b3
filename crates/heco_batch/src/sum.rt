ghost use Rattle.std.specs.Prelude.{◌≡◌, ℕ, ◌+◌, ◌^◌, ◌%◌, ◌<◌, ◌≤◌, List as Seq, [], ◌∷◌, ◌++◌, length, IfOk};
ghost use Rattle.heco_written.specs.WrittenForm.{Place, folded, beside};
ghost use Rattle.heco_ir.specs.declared.scalar.SNode.{SNode};
ghost use Rattle.heco_ir.specs.Ranges.{AllFit};
ghost use Rattle.heco_ir.specs.Terms.{Extends};
ghost use Rattle.heco_batch.specs.inside.Places.{place_at, run_at, place_at_option, PlaceIs, OptionWithin};
ghost use Rattle.heco_batch.specs.inside.Sums.{ArePlaces, AreOptionPlaces};

use crate::batcher::Batcher;
use crate::place::{NodeRun, NodeSlot};
use heco_cse::Cons;
use heco_nums::Memory;

/// The runs of places: what the closed ones sum to, the open one, and what all sum to.
#[derive(Clone, Copy, Debug)]
pub struct NodePlaces {
    pub closed: Option<NodeSlot>,
    pub last: NodeRun,
    pub sum: NodeSlot,
}

impl Batcher {
    /// The places, after a run is opened or made longer.
    fn opened(
        self,
        c: &mut Cons,
        closed: Option<NodeSlot>,
        last: NodeRun,
    ) -> Result<NodePlaces, Memory>
        requires closed { OptionWithin (length c.old) self.slots closed }
        requires within { last.node.0 < length c.old }
        requires slot { last.slot < self.slots }
        requires some { 0 < last.size }
        requires size { last.size ≤ self.slots }
        requires room { length c.old + 64 < 2 ^ 26 }
        ensures closed { IfOk result (λ d. d.closed ≡ closed) }
        ensures run { IfOk result (λ d. d.last ≡ last) }
        ensures sum { IfOk result (λ d. PlaceIs c.new d.sum (beside self.slots (place_at_option c.old closed) (folded (run_at c.old last)))) }
        ensures stands { Extends 38 c.old c.new }
        ensures fits { (modulus : ℕ) (es : Seq SNode) → AllFit self.slots modulus es c.old → AllFit self.slots modulus es c.new }
    {
        let sum = self.add_run(c, closed, last)?;
        Ok(NodePlaces { closed, last, sum })
    }

    /// The places with one more.
    pub fn place_added(
        self,
        c: &mut Cons,
        s: Option<NodePlaces>,
        p: NodeSlot,
    ) -> Result<NodePlaces, Memory>
        requires placed { (ps : Seq Place) × AreOptionPlaces c.old self.slots s ps }
        requires within { p.node.0 < length c.old }
        requires slot { p.slot < self.slots }
        requires room { length c.old + 64 < 2 ^ 26 }
        ensures places { (ps : Seq Place) → AreOptionPlaces c.old self.slots s ps → IfOk result (λ d. ArePlaces c.new self.slots d (ps ++ place_at c.old p ∷ [])) }
        ensures stands { Extends 38 c.old c.new }
        ensures fits { (modulus : ℕ) (es : Seq SNode) → AllFit self.slots modulus es c.old → AllFit self.slots modulus es c.new }
    {
        let first = NodeRun {
            node: p.node,
            slot: p.slot,
            size: 1,
        };
        match s {
            None => self.opened(c, None, first),
            Some(s) => {
                if self.continues(c, s.last, p) {
                    let longer = NodeRun {
                        node: s.last.node,
                        slot: s.last.slot,
                        size: s.last.size + 1,
                    };
                    self.opened(c, s.closed, longer)
                } else {
                    self.opened(c, Some(s.sum), first)
                }
            }
        }
    }
}

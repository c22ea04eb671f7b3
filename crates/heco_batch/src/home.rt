ghost use Rattle.std.specs.Prelude.{◌≡◌, ℕ, ◌+◌, ◌*◌, ◌^◌, ◌%◌, ◌<◌, ◌≤◌, List as Seq, [], ◌∷◌, ◌++◌, length, IfOk};
ghost use Rattle.heco_written.specs.WrittenForm.{WrittenHome, Known, At, sum_home, product_home, negation_home};
ghost use Rattle.heco_ir.specs.declared.scalar.SNode.{SNode};
ghost use Rattle.heco_ir.specs.Ranges.{AllFit};
ghost use Rattle.heco_ir.specs.Terms.{Extends};
ghost use Rattle.heco_batch.specs.inside.Places.{place_at};
ghost use Rattle.heco_batch.specs.inside.Homes.{HomeIs, SumIs, IsNoZero};

use crate::batcher::Batcher;
use crate::place::NodeSlot;
use crate::sum::NodePlaces;
use heco_cse::Cons;
use heco_ir::VNode;
use heco_nums::Memory;

/// Where a scalar's value is among the nodes.
#[derive(Clone, Copy, Debug)]
pub enum NodeHome {
    Number(u32),
    At(NodeSlot),
}

/// The members of a sum so far.
#[derive(Clone, Copy, Debug)]
pub struct NodeSum {
    pub constant: u32,
    pub places: Option<NodePlaces>,
}

impl Batcher {
    /// The sum with one more member.
    pub fn member_added(self, c: &mut Cons, s: NodeSum, h: NodeHome) -> Result<NodeSum, Memory>
        requires sum { (hs : Seq WrittenHome) × SumIs c.old self.slots self.modulus s hs }
        requires home { (k : WrittenHome) × HomeIs c.old self.slots self.modulus h k }
        requires room { length c.old + 64 < 2 ^ 26 }
        ensures sum { (hs : Seq WrittenHome) (k : WrittenHome) → SumIs c.old self.slots self.modulus s hs → HomeIs c.old self.slots self.modulus h k
            → IfOk result (λ d. SumIs c.new self.slots self.modulus d (hs ++ k ∷ [])) }
        ensures stands { Extends 38 c.old c.new }
        ensures fits { (es : Seq SNode) → AllFit self.slots self.modulus es c.old → AllFit self.slots self.modulus es c.new }
    {
        match h {
            NodeHome::Number(d) => Ok(NodeSum {
                constant: (s.constant + d) % self.modulus,
                places: s.places,
            }),
            NodeHome::At(p) => {
                let places = self.place_added(c, s.places, p)?;
                Ok(NodeSum {
                    constant: s.constant,
                    places: Some(places),
                })
            }
        }
    }

    /// The home of a sum of members.
    pub fn finished(self, c: &mut Cons, s: NodeSum) -> Result<NodeHome, Memory>
        requires sum { (hs : Seq WrittenHome) × SumIs c.old self.slots self.modulus s hs }
        requires room { length c.old + 1 ≤ 2 ^ 26 }
        ensures home { (hs : Seq WrittenHome) → SumIs c.old self.slots self.modulus s hs → IfOk result (λ d. HomeIs c.new self.slots self.modulus d (sum_home self.modulus self.slots hs)) }
        ensures stands { Extends 1 c.old c.new }
        ensures fits { (es : Seq SNode) → AllFit self.slots self.modulus es c.old → AllFit self.slots self.modulus es c.new }
    {
        let places = match s.places {
            None => return Ok(NodeHome::Number(s.constant)),
            Some(places) => places,
        };
        if s.constant == 0 {
            return Ok(NodeHome::At(places.sum));
        }
        let node = c.put(VNode::Shift {
            c: s.constant,
            v: places.sum.node,
        })?;
        Ok(NodeHome::At(NodeSlot {
            node,
            slot: places.sum.slot,
        }))
    }

    /// The home of a negation.
    pub fn negated(self, c: &mut Cons, h: NodeHome) -> Result<NodeHome, Memory>
        requires home { (k : WrittenHome) × HomeIs c.old self.slots self.modulus h k }
        requires room { length c.old + 1 ≤ 2 ^ 26 }
        ensures home { (k : WrittenHome) → HomeIs c.old self.slots self.modulus h k → IfOk result (λ d. HomeIs c.new self.slots self.modulus d (negation_home self.modulus self.slots k)) }
        ensures stands { Extends 1 c.old c.new }
        ensures fits { (es : Seq SNode) → AllFit self.slots self.modulus es c.old → AllFit self.slots self.modulus es c.new }
    {
        match h {
            NodeHome::Number(d) => Ok(NodeHome::Number((self.modulus - d) % self.modulus)),
            NodeHome::At(p) => {
                let node = c.put(VNode::Neg { v: p.node })?;
                Ok(NodeHome::At(NodeSlot { node, slot: p.slot }))
            }
        }
    }

    /// The home of a number times a place.
    fn scaled(self, c: &mut Cons, k: u32, p: NodeSlot) -> Result<NodeHome, Memory>
        requires some { 0 < k }
        requires constant { k < self.modulus }
        requires within { p.node.0 < length c.old }
        requires slot { p.slot < self.slots }
        requires room { length c.old + 1 ≤ 2 ^ 26 }
        ensures home { IfOk result (λ d. HomeIs c.new self.slots self.modulus d (product_home self.modulus self.slots (Known k) (At (place_at c.old p)))) }
        ensures stands { Extends 1 c.old c.new }
        ensures fits { (es : Seq SNode) → AllFit self.slots self.modulus es c.old → AllFit self.slots self.modulus es c.new }
    {
        let node = c.put(VNode::Scale { c: k, v: p.node })?;
        Ok(NodeHome::At(NodeSlot { node, slot: p.slot }))
    }

    /// The home of a place times a place.
    fn times(self, c: &mut Cons, p: NodeSlot, q: NodeSlot) -> Result<NodeHome, Memory>
        requires left { p.node.0 < length c.old }
        requires right { q.node.0 < length c.old }
        requires left_slot { p.slot < self.slots }
        requires right_slot { q.slot < self.slots }
        requires room { length c.old + 2 ≤ 2 ^ 26 }
        ensures home { IfOk result (λ d. HomeIs c.new self.slots self.modulus d (product_home self.modulus self.slots (At (place_at c.old p)) (At (place_at c.old q)))) }
        ensures stands { Extends 3 c.old c.new }
        ensures fits { (es : Seq SNode) → AllFit self.slots self.modulus es c.old → AllFit self.slots self.modulus es c.new }
    {
        let aligned = self.align(c, p.slot, q)?;
        let node = c.put(VNode::Mul {
            v: p.node,
            w: aligned,
        })?;
        Ok(NodeHome::At(NodeSlot { node, slot: p.slot }))
    }

    /// The home of a product.
    pub fn multiplied(self, c: &mut Cons, g: NodeHome, h: NodeHome) -> Result<NodeHome, Memory>
        requires left { (k : WrittenHome) × HomeIs c.old self.slots self.modulus g k }
        requires right { (k : WrittenHome) × HomeIs c.old self.slots self.modulus h k }
        requires left_factor { IsNoZero g }
        requires right_factor { IsNoZero h }
        requires room { length c.old + 2 ≤ 2 ^ 26 }
        ensures home { (k l : WrittenHome) → HomeIs c.old self.slots self.modulus g k → HomeIs c.old self.slots self.modulus h l
            → IfOk result (λ d. HomeIs c.new self.slots self.modulus d (product_home self.modulus self.slots k l)) }
        ensures stands { Extends 3 c.old c.new }
        ensures fits { (es : Seq SNode) → AllFit self.slots self.modulus es c.old → AllFit self.slots self.modulus es c.new }
    {
        match g {
            NodeHome::Number(a) => match h {
                NodeHome::Number(b) => Ok(NodeHome::Number(product(self.modulus, a, b))),
                NodeHome::At(q) => self.scaled(c, a, q),
            },
            NodeHome::At(p) => match h {
                NodeHome::Number(b) => self.scaled(c, b, p),
                NodeHome::At(q) => self.times(c, p, q),
            },
        }
    }
}

fn product(modulus: u32, a: u32, b: u32) -> u32
    requires { 0 < modulus }
    ensures { result ≡ (a * b) % modulus }
{
    ((a as u64 * b as u64) % modulus as u64) as u32
}

ghost use Rattle.std.specs.Prelude.{◌≡◌, ℕ, ◌+◌, ◌^◌, ◌%◌, ◌<◌, ◌≤◌, List as Seq, [], ◌∷◌, ◌++◌, length, IfOk};
ghost use Rattle.heco_written.specs.ScalarTerm.{ScalarTerm, Sum as SumTerm};
ghost use Rattle.heco_written.specs.WrittenForm.{WrittenHome, written};
ghost use Rattle.heco_ir.specs.declared.scalar.SNode.{SNode};
ghost use Rattle.heco_ir.specs.Ranges.{AllFit};
ghost use Rattle.heco_ir.specs.Terms.{Extends};
ghost use Rattle.heco_batch.specs.inside.Homes.{HomeIs, SumIs};
ghost use Rattle.heco_batch.specs.inside.Written.{WrittenIs};

use crate::batcher::Batcher;
use crate::home::{NodeHome, NodeSum};
use crate::place::{NodeRun, NodeSlot};
use crate::sum::NodePlaces;
use heco_cse::Cons;
use heco_nums::Memory;

/// The written form of a scalar node: its home, and its members where it is a sum.
#[derive(Clone, Copy, Debug)]
pub struct NodeWritten {
    pub home: NodeHome,
    pub members: Option<NodeSum>,
}

impl Batcher {
    /// The sum of one member.
    fn alone(self, c: &Cons, h: NodeHome) -> NodeSum
        requires home { (k : WrittenHome) × HomeIs c.now self.slots self.modulus h k }
        ensures { (k : WrittenHome) → HomeIs c.now self.slots self.modulus h k → SumIs c.now self.slots self.modulus result (k ∷ []) }
    {
        match h {
            NodeHome::Number(d) => NodeSum {
                constant: d,
                places: None,
            },
            NodeHome::At(p) => NodeSum {
                constant: 0,
                places: Some(NodePlaces {
                    closed: None,
                    last: NodeRun {
                        node: p.node,
                        slot: p.slot,
                        size: 1,
                    },
                    sum: p,
                }),
            },
        }
    }

    /// The members of a term, as those of a sum.
    fn members_of(self, c: &Cons, x: NodeWritten) -> NodeSum
        requires written { (t : ScalarTerm) × WrittenIs c.now self.slots self.modulus x t }
        ensures { (t : ScalarTerm) → WrittenIs c.now self.slots self.modulus x t → SumIs c.now self.slots self.modulus result (written self.modulus self.slots t).members }
    {
        match x.members {
            Some(s) => s,
            None => self.alone(c, x.home),
        }
    }

    /// The written form of a sum.
    pub fn summed(self, c: &mut Cons, x: NodeWritten, y: NodeWritten) -> Result<NodeWritten, Memory>
        requires left { (t : ScalarTerm) × WrittenIs c.old self.slots self.modulus x t }
        requires right { (t : ScalarTerm) × WrittenIs c.old self.slots self.modulus y t }
        requires room { length c.old + 64 < 2 ^ 26 }
        ensures written { (t u : ScalarTerm) → WrittenIs c.old self.slots self.modulus x t → WrittenIs c.old self.slots self.modulus y u
            → IfOk result (λ d. WrittenIs c.new self.slots self.modulus d (SumTerm t u)) }
        ensures stands { Extends 39 c.old c.new }
        ensures fits { (es : Seq SNode) → AllFit self.slots self.modulus es c.old → AllFit self.slots self.modulus es c.new }
    {
        let before = self.members_of(c, x);
        let members = self.member_added(c, before, y.home)?;
        let home = self.finished(c, members)?;
        Ok(NodeWritten {
            home,
            members: Some(members),
        })
    }
}

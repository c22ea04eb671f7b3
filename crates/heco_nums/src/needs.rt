ghost use Rattle.std.specs.Prelude.{◌≡◌, IfOk};
ghost use Rattle.heco_nums.specs.Needs.{IsRising};

use crate::{List, Memory};
use std::alloc::Global;

/// The switch keys that a circuit needs: whether one to relinearise, and the amounts of its turns, which rise.
#[derive(Debug, Drop)]
pub struct KeyNeeds {
    pub relin: bool,
    pub turns: List<u16>,
    pub ghost rising: { IsRising turns },
}

impl KeyNeeds {
    /// A copy of the needs.
    pub fn copy(&self, alloc: Global) -> Result<KeyNeeds, Memory>
        ensures { IfOk result (λ copy. (copy.relin ≡ self.now.relin) × (copy.turns ≡ self.now.turns)) }
    {
        Ok(KeyNeeds {
            relin: self.relin,
            turns: List::from_slice(alloc, self.turns.as_slice())?,
        })
    }
}

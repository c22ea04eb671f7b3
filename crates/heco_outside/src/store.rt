ghost use Rattle.std.specs.Prelude.{◌≡◌, List, ℕ, Bool, Option, IsTrue, IfOk, OnOk, ◌≢◌, None, IsErrOf};
ghost use Rattle.heco_outside.specs.declared.store.Call.{Call};
ghost use Rattle.heco_outside.specs.declared.store.CallKind.TheVariants.{Read, Write};
ghost use Rattle.heco_outside.specs.declared.store.StoreErr.TheVariants.{Failed};
ghost use Rattle.heco_outside.specs.Causes.{StoreCause, Undisturbed};
ghost use Rattle.heco_outside.specs.Calls.{Logs, GivesFile, HasSet};

use heco_nums::{Bytes, Memory};
use std::alloc::Global;
use thiserror::Error;

/// Why a file was not read or written.
#[derive(Clone, Copy, Debug, PartialEq, Eq, Error)]
pub enum StoreErr {
    #[error("a read or a write failed")]
    Failed,
    #[error("out of memory")]
    Memory,
}

impl From<Memory> for StoreErr {
    ghost use Rattle.heco_outside.specs.declared.store.StoreErr.TheVariants.{Memory};

    ghost from_gives = { λ _ e. e ≡ Memory };

    fn from(_: Memory) -> Self {
        StoreErr::Memory
    }
}

#[derive(Clone, Copy, Debug, PartialEq, Eq)]
pub enum CallKind {
    Read,
    Write,
}

/// A call of a store that was answered by Ok or Failed.
#[derive(Debug, Drop)]
pub struct Call {
    pub kind: CallKind,
    pub name: Bytes,
    pub failed: bool,
}

/// Files by name.
pub trait Store {
    /// The store tells its files and its calls.
    ghost tells: { Bool };

    /// The bytes of each file that is there.
    ghost file: { Self → List ℕ → Option (List ℕ) };

    /// The calls that were answered by Ok or Failed, in order.
    ghost calls: { Self → List Call };

    /// How often the store has failed.
    ghost faults: { Self → ℕ };

    /// Nothing but an absent name makes a call fail from here on.
    ghost steady: { Self → Type 0 };

    /// The file's bytes, or its first `limit` bytes where it has more.
    fn read(&mut self, alloc: Global, name: &str, limit: u64) -> Result<Bytes, StoreErr>
        ensures cause { StoreCause (faults self.old) (faults self.new) result }
        ensures bytes { IsTrue tells → IfOk result (GivesFile (file self.old name.now) limit) }
        ensures files { IsTrue tells → (other : List ℕ) → file self.new other ≡ file self.old other }
        ensures logged { IsTrue tells → Logs Read name.now (calls self.old) (calls self.new) result }
        ensures steady { steady self.old → Undisturbed (steady self.new) (IsErrOf result Failed) (file self.old name.now ≡ None) (faults self.old) (faults self.new) };

    /// Makes the file these bytes. Where it fails, nothing is told of the named file.
    fn write(&mut self, alloc: Global, name: &str, bytes: &[u8]) -> Result<(), StoreErr>
        ensures cause { StoreCause (faults self.old) (faults self.new) result }
        ensures written { IsTrue tells → OnOk result (HasSet (file self.old) name.now bytes.now (file self.new)) }
        ensures others { IsTrue tells → (other : List ℕ) → other ≢ name.now → file self.new other ≡ file self.old other }
        ensures logged { IsTrue tells → Logs Write name.now (calls self.old) (calls self.new) result }
        ensures steady { steady self.old → Undisturbed (steady self.new) (IsErrOf result Failed) ⊥ (faults self.old) (faults self.new) };
}

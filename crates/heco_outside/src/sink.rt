ghost use Rattle.std.specs.Prelude.{◌≡◌, List, ℕ, Bool, IsTrue, IsErrOf};
ghost use Rattle.heco_outside.specs.Causes.{SinkCause, Undisturbed};
ghost use Rattle.heco_outside.specs.Calls.{Wrote};
ghost use Rattle.heco_outside.specs.declared.sink.SinkErr.TheVariants.{Failed};

use thiserror::Error;

/// Why a sink took only a part of a piece.
#[derive(Clone, Copy, Debug, PartialEq, Eq, Error)]
pub enum SinkErr {
    #[error("a write failed")]
    Failed,
    #[error("out of memory")]
    Memory,
}

/// Where bytes go.
pub trait Sink {
    /// The sink tells the bytes that it has taken.
    ghost tells: { Bool };

    /// The bytes taken.
    ghost taken: { Self → List ℕ };

    /// How often the sink has failed.
    ghost faults: { Self → ℕ };

    /// How often a call found no memory.
    ghost shortages: { Self → ℕ };

    /// No call fails from here on.
    ghost steady: { Self → Type 0 };

    /// Takes the whole piece, or where it fails a prefix of it.
    fn write_all(&mut self, bytes: &[u8]) -> Result<(), SinkErr>
        ensures cause { SinkCause (faults self.old) (faults self.new) (shortages self.old) (shortages self.new) result }
        ensures wrote { IsTrue tells → Wrote (taken self.old) (taken self.new) bytes.now result }
        ensures steady { steady self.old → Undisturbed (steady self.new) (IsErrOf result Failed) ⊥ (faults self.old) (faults self.new) };
}

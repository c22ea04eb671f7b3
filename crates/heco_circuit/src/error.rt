ghost use Rattle.std.specs.Prelude.{◌≡◌};

use heco_nums::Memory;
use thiserror::Error;

/// Why a circuit file was refused.
#[derive(Clone, Copy, Debug, PartialEq, Eq, Error)]
pub enum CirErr {
    /// The first broken field, or the first byte after the last field, stands there.
    #[error("malformed at {at}")]
    Malformed { at: u64 },
    /// The bound of this gate is the first that passes.
    #[error("the bound {bound} of gate {gate} passes")]
    Noisy { gate: u32, bound: u128 },
    #[error("out of memory")]
    Memory,
}

impl From<Memory> for CirErr {
    ghost use Rattle.heco_circuit.specs.declared.error.CirErr.TheVariants.{Memory};

    ghost from_gives = { λ _ e. e ≡ Memory };

    fn from(_: Memory) -> Self {
        CirErr::Memory
    }
}

ghost use Rattle.std.specs.Prelude.{◌≡◌};

use heco_nums::Memory;
use thiserror::Error;

/// Why material was refused.
#[derive(Clone, Copy, Debug, PartialEq, Eq, Error)]
pub enum MatErr {
    /// The length is not the stated one; the smaller of the two.
    #[error("length at {at}")]
    Length { at: u64 },
    /// The first word out of bounds begins there.
    #[error("bounds at {at}")]
    Bounds { at: u64 },
    #[error("out of memory")]
    Memory,
}

impl From<Memory> for MatErr {
    ghost use Rattle.heco_material.specs.declared.error.MatErr.TheVariants.{Memory};

    ghost from_gives = { λ _ e. e ≡ Memory };

    fn from(_: Memory) -> Self {
        MatErr::Memory
    }
}

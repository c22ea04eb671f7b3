ghost use Rattle.std.specs.Prelude.{◌≡◌};

use heco_nums::Memory;
use thiserror::Error;

/// Why a file of keys or ciphertexts was refused.
#[derive(Clone, Copy, Debug, PartialEq, Eq, Error)]
pub enum FileErr {
    /// The first broken field begins there, or the first byte behind the last field.
    #[error("malformed at {at}")]
    Malformed { at: u64 },
    /// The file is of another preset than the one that is kept.
    #[error("preset {found} where {kept} is wanted")]
    WrongPreset { kept: u8, found: u8 },
    /// The file holds another number of ciphertexts than is wanted.
    #[error("{found} ciphertexts where {want} are wanted")]
    Count { want: u32, found: u32 },
    #[error("out of memory")]
    Memory,
}

impl From<Memory> for FileErr {
    ghost use Rattle.heco_lists.specs.declared.error.FileErr.TheVariants.{Memory};

    ghost from_gives = { λ _ e. e ≡ Memory };

    fn from(_: Memory) -> Self {
        FileErr::Memory
    }
}

use heco_lex::{Place, Rule};
use heco_nums::Memory;
use thiserror::Error;

/// Why a source isn't typed.
#[derive(Clone, Copy, Debug, PartialEq, Eq, Error)]
pub enum TypeErr {
    /// The first broken rule of typing, and the place of its token.
    #[error("At")]
    At { rule: Rule, at: Place },
    #[error("out of memory")]
    Memory,
}

impl From<Memory> for TypeErr {
    ghost use Rattle.std.specs.Prelude.{◌≡◌};
    ghost use Rattle.heco_types.specs.declared.refusal.TypeErr.TheVariants.{Memory};

    ghost from_gives = { λ _ e. e ≡ Memory };

    fn from(_: Memory) -> Self {
        TypeErr::Memory
    }
}

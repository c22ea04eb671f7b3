use heco_lex::{Place, Rule};
use heco_nums::Memory;

/// Why an execution gave no outputs: the first rule that it breaks, at its place, or want of memory.
#[derive(Clone, Copy, Debug, PartialEq, Eq)]
pub enum EvalErr {
    At { rule: Rule, at: Place },
    Memory,
}

impl From<Memory> for EvalErr {
    ghost use Rattle.std.specs.Prelude.{◌≡◌};
    ghost use Rattle.heco_execution.specs.declared.error.EvalErr.TheVariants.{Memory};

    ghost from_gives = { λ _ e. e ≡ Memory };

    fn from(_: Memory) -> Self {
        EvalErr::Memory
    }
}

ghost use Rattle.std.specs.Prelude.{◌≡◌};

use heco_nums::Memory;
use thiserror::Error;

/// A rule that a line of a text of inputs breaks, in the order in which they are tried.
#[derive(Clone, Copy, Debug, PartialEq, Eq)]
pub enum InputRule {
    /// The line hasn't the form of a name, `=` and numbers.
    InputText,
    /// No input has the name, or an earlier line gave it.
    InputName,
    /// There are more or fewer numbers than the input has elements.
    InputCount,
    /// A number is the plaintext modulus or more.
    InputValue,
}

/// Why a text of inputs was refused.
#[derive(Clone, Copy, Debug, PartialEq, Eq, Error)]
pub enum InputErr {
    /// The text has more than 4,194,304 bytes.
    #[error("the text of inputs is too long")]
    InputLong,
    /// The first line, counted from 1, that breaks a rule, and the first rule that it breaks.
    #[error("line {line}: {rule:?}")]
    At { rule: InputRule, line: u32 },
    /// No line breaks a rule, and this is the first input, counted from 0, that no line gave.
    #[error("input {which} is missing")]
    InputMissing { which: u32 },
    #[error("out of memory")]
    Memory,
}

impl From<Memory> for InputErr {
    ghost use Rattle.heco_texts.specs.declared.error.InputErr.TheVariants.{Memory};

    ghost from_gives = { λ _ e. e ≡ Memory };

    fn from(_: Memory) -> Self {
        InputErr::Memory
    }
}

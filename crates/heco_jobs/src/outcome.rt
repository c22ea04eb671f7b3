ghost use Rattle.std.specs.Prelude.{◌≡◌};
ghost use Rattle.heco_jobs.specs.Statuses.{status_of};

use heco_lex::{Place, Rule};
use heco_nums::Memory;
use heco_texts::InputRule;

/// Why words or a file are refused. Lines and columns are from 1. `which` is the number of the file word, but in
/// `InputMissing` and `SecondMissing`.
#[derive(Clone, Copy, Debug, PartialEq, Eq)]
pub enum Refusal {
    Usage,
    /// The source has more than 1,048,576 bytes.
    SourceLong,
    /// The first rule of reading, of typing or of execution that the source breaks, and the place of its byte or token.
    At { rule: Rule, at: Place },
    /// The first output element whose written form is too deep, and the first bound in it that passes.
    TooDeep { out: u32, index: u32, bound: u128 },
    /// The input text has more than 4,194,304 bytes.
    InputLong,
    /// The first line of the input text that breaks a rule, and the first rule that it breaks.
    InputAt { rule: InputRule, line: u32 },
    /// The first input, counted from 0, that no line of the input text gave.
    InputMissing { which: u32 },
    /// The second input text has more than 4,194,304 bytes.
    SecondLong,
    /// The first line of the second input text that breaks a rule, and the first rule that it breaks.
    SecondAt { rule: InputRule, line: u32 },
    /// The first input, counted from 0, that no line of the second input text gave.
    SecondMissing { which: u32 },
    /// The material's length is not the stated one; the smaller of the two.
    Length { which: u8, at: u64 },
    /// The material's first word out of bounds begins there.
    Bounds { which: u8, at: u64 },
    /// The first broken field, or the first byte behind the last field, stands there.
    Malformed { which: u8, at: u64 },
    /// The bound of this gate is the first that passes.
    Noisy { which: u8, gate: u32, bound: u128 },
    /// The file is of another preset than the circuit.
    WrongPreset { which: u8, kept: u8, found: u8 },
    /// The file holds another number of ciphertexts than the circuit has inputs, or different output wires.
    Count { which: u8, want: u32, found: u32 },
    /// The circuit relinearises, and the evaluation key has no key for it.
    MissingRelin,
    /// The least amount that the circuit turns by and the evaluation key has no key for.
    MissingKey { amount: u16 },
}

/// How a command ended. `which` is the number of the word after the command word; 0 is standard output.
#[derive(Clone, Copy, Debug, PartialEq, Eq)]
pub enum Outcome {
    Ok,
    Refused(Refusal),
    ReadFault { which: u8 },
    WriteFault { which: u8 },
    Memory,
}

impl Outcome {
    /// The exit status.
    pub fn status(&self) -> u8
        ensures { result ≡ status_of self.now }
    {
        match self {
            Outcome::Ok => 0,
            Outcome::Refused(Refusal::SourceLong) => 1,
            Outcome::Refused(Refusal::At { .. }) => 1,
            Outcome::Refused(Refusal::TooDeep { .. }) => 1,
            Outcome::Refused(Refusal::Usage) => 2,
            Outcome::Refused(Refusal::InputLong) => 3,
            Outcome::Refused(Refusal::InputAt { .. }) => 3,
            Outcome::Refused(Refusal::InputMissing { .. }) => 3,
            Outcome::Refused(Refusal::SecondLong) => 3,
            Outcome::Refused(Refusal::SecondAt { .. }) => 3,
            Outcome::Refused(Refusal::SecondMissing { .. }) => 3,
            Outcome::Refused(Refusal::Length { .. }) => 3,
            Outcome::Refused(Refusal::Bounds { .. }) => 3,
            Outcome::Refused(Refusal::Malformed { .. }) => 3,
            Outcome::Refused(Refusal::Noisy { .. }) => 3,
            Outcome::Refused(Refusal::WrongPreset { .. }) => 3,
            Outcome::Refused(Refusal::Count { .. }) => 3,
            Outcome::Refused(Refusal::MissingRelin) => 3,
            Outcome::Refused(Refusal::MissingKey { .. }) => 3,
            Outcome::ReadFault { .. } | Outcome::WriteFault { .. } => 4,
            Outcome::Memory => 5,
        }
    }
}

impl From<Memory> for Outcome {
    ghost use Rattle.heco_jobs.specs.declared.outcome.Outcome.TheVariants.{Memory};

    ghost from_gives = { λ _ outcome. outcome ≡ Memory };

    fn from(_: Memory) -> Self {
        Outcome::Memory
    }
}

use heco_execution::EvalErr;
use heco_lex::{Place, Rule};
use heco_place::PlaceErr;
use heco_sources::SourceErr;
use thiserror::Error;

/// Why a text, or a typed source, is not compiled.
#[derive(Clone, Copy, Debug, PartialEq, Eq, Error)]
pub enum CompileErr {
    /// The text has more than 1,048,576 bytes.
    #[error("the source is too long")]
    SourceLong,
    /// The first rule that is broken: of reading, or else of typing, or else of execution.
    #[error("{}:{}: {rule:?}", at.line, at.col)]
    At { rule: Rule, at: Place },
    /// The first output element that is too deep, and the first bound in its written form that passes.
    #[error("too deep: the bound {bound} at element {index} of output {out}")]
    TooDeep { out: u32, index: u32, bound: u128 },
    #[error("out of memory")]
    Memory,
}

impl From<SourceErr> for CompileErr {
    ghost use Rattle.std.specs.Prelude.{◌≡◌};
    ghost use Rattle.heco_compile.specs.Refusals.{of_reading};

    ghost from_gives = { λ e r. r ≡ of_reading e };

    fn from(e: SourceErr) -> Self {
        match e {
            SourceErr::SourceLong => CompileErr::SourceLong,
            SourceErr::At { rule, at } => CompileErr::At { rule, at },
            SourceErr::Memory => CompileErr::Memory,
        }
    }
}

impl From<EvalErr> for CompileErr {
    ghost use Rattle.std.specs.Prelude.{◌≡◌};
    ghost use Rattle.heco_compile.specs.Refusals.{of_execution};

    ghost from_gives = { λ e r. r ≡ of_execution e };

    fn from(e: EvalErr) -> Self {
        match e {
            EvalErr::At { rule, at } => CompileErr::At { rule, at },
            EvalErr::Memory => CompileErr::Memory,
        }
    }
}

impl From<PlaceErr> for CompileErr {
    ghost use Rattle.std.specs.Prelude.{◌≡◌};
    ghost use Rattle.heco_compile.specs.Refusals.{of_placing};

    ghost from_gives = { λ e r. r ≡ of_placing e };

    fn from(e: PlaceErr) -> Self {
        match e {
            PlaceErr::TooDeep { out, index, bound } => CompileErr::TooDeep { out, index, bound },
            PlaceErr::Memory => CompileErr::Memory,
        }
    }
}

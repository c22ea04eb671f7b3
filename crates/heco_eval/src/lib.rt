//! The plain evaluation of a typed source.
#![tactic(auto)]

mod evaluation;

pub use evaluation::plain;
pub use heco_execution::EvalErr;

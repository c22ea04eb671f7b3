//! The execution of a typed source on scalar nodes.
#![tactic(auto)]

mod elements;
mod law;
mod nodes;
mod operand;
mod roots;
mod unrolling;

pub use heco_execution::EvalErr;
pub use law::outputs_have_their_lengths;
pub use operand::Operand;
pub use unrolling::unroll;

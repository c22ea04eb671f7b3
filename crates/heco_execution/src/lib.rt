//! The execution of a source, whatever its secrets are: the definition, and one interpreter over a trait.
#![tactic(auto)]

mod assignment;
mod calls;
mod definitions;
mod error;
mod expression;
mod law;
mod names;
mod numbers;
mod operators;
mod progress;
mod secrets;
mod statement;
mod value;
mod whole;

pub use error::EvalErr;
pub use law::{calls_mean_their_definitions, numbers_are_the_values_of_terms, terms_are_made};
pub use numbers::{Numbers, plain};
pub use progress::Progress;
pub use secrets::Secrets;
pub use value::{Element, Operator, Value};
pub use whole::execute;

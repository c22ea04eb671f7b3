//! A text as a typed source, and a text as the values of its inputs.
#![tactic(auto)]

mod inputs;
mod source;

pub use inputs::read_values;
pub use source::{SourceErr, read_source};

//! The compiler: the circuit of a text or of a typed source, or why it has none.
#![tactic(auto)]

mod circuit;
mod compiling;
mod error;
mod vectors;

pub use compiling::{compile, compile_typed};
pub use error::CompileErr;

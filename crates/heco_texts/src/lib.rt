//! The texts of inputs and outputs: what a line says, the rules that it may break, and the text that is printed.
#![tactic(auto)]

mod bytes;
mod error;
mod given;
mod judge;
mod law;
mod number;
mod print;
mod read;

pub use error::{InputErr, InputRule};
pub use law::line_has_one_reading;
pub use print::print_outputs;
pub use read::read_inputs;

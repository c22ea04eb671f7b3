//! The board: a circuit's gates on their way over a few workers, and who picks the next event.
#![tactic(auto)]

mod board;
mod gate;
mod laws;
mod opening;
mod picker;
mod readers;
mod ready;
mod uses;
mod wires;
mod workers;

pub use board::Board;
pub use gate::operands;
pub use heco_schedules::{Event, StepErr};
pub use laws::circuits_are_wired;
pub use picker::{Drawn, First, Last, Picker};

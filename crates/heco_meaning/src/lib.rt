//! What a circuit means, computed on plain lists of slots: slow, and the measure of every faster way.
#![tactic(auto)]

mod cells;
mod slots;
mod whole;
mod wires;

pub use cells::rows_of;
pub use slots::filled;
pub use whole::meaning;

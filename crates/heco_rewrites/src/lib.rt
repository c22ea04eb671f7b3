//! Gates over wires under other numbers: what they keep.
#![tactic(auto)]

mod laws;
mod ports;
mod renaming;

pub use laws::{dead_gates_may_go, gates_may_be_renamed, wires_are_full};
pub use ports::{copied_inputs, copied_vectors, outputs_over};
pub use renaming::{input_names, name_at, over};

//! Circuits of gates on batched ciphertexts: when they are valid, their noise bounds, the keys that they need, and
//! their file.
#![tactic(auto)]

mod circuit;
mod draft;
mod error;
mod gate;
mod key_needs;
mod noise;
mod parts;
mod quiet;
mod read_gate;
mod read_gates;
mod read_ports;
mod read_vectors;
mod reading;
mod version;
mod weights;
mod writing;

pub use circuit::Circuit;
pub use error::CirErr;
pub use gate::{Cell, Gate, Output};
pub use key_needs::{is_relin, needs};
pub use noise::{bound_at, bound_of};
pub use parts::{input_parts, part_count, parts_of};
pub use quiet::{bounds, fresh_bounds, valid_circuits_are_quiet};
pub use reading::read;
pub use weights::weights_of;
pub use writing::write;

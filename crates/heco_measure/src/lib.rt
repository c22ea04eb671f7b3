//! The noise of each wire of a circuit's run, measured with the secret key, beside its written bound.
#![tactic(auto)]

mod lines;
mod making;
mod measuring;
mod message_gates;
mod noise;
mod settling;
mod wire_messages;
mod wires;

pub use lines::measured_text;
pub use measuring::{Measured, measure};

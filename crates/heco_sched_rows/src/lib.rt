//! Boards: which events are legal, why others are refused, and what pickers answer.
#![tactic(auto)]

mod events;
#[cfg(test)]
mod picked;
#[cfg(test)]
mod pickers;
#[cfg(test)]
mod refused;

pub use events::{circuit_of, event_of};

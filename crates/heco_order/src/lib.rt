//! Trees that tokens of a text spell have Words as names and places that rise in text order.
#![tactic(auto)]

mod laws;

pub use laws::sources_are_in_order;

//! The source that `sample` runs: that its text is a source, and that it is accepted.
#![tactic(auto)]

mod laws;

pub use laws::{sample_gives_one_value, sample_is_accepted};

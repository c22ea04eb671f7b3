//! What is drawn from a seed: sparse secrets, words, errors and values, each named by the generator's own words.
#![tactic(auto)]

mod draw;
mod secret;

pub use draw::{draw_errors, draw_values, draw_words, start};
pub use secret::draw_sparse;

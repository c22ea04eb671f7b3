//! What `pair` gives, and its headline: what it has done where it is done.
#![tactic(auto)]

mod chain;
mod laws;

pub use chain::pair_product;
pub use laws::{calls_print_apart, done_is_paired, given_is_ready, paired_files_are_of_one_chain};

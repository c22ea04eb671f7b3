//! Products by plain vectors in place of multiples of a wire.
#![tactic(auto)]

mod asks;
mod choosing;
mod filling;
mod gathering;
mod groups;
mod laws;
mod multiple;
mod product;
mod reads;
mod rewriting;
mod scaled;

pub use gathering::gather;
pub use laws::{
    gathered_circuits_are_valid, gathered_circuits_keep_the_rest, gathered_circuits_mean_the_same,
    nothing_more_is_found,
};

//! What `sample` gives: a fixed source on drawn values, in the clear and through the whole chain.
#![tactic(auto)]

mod chain;
mod drawn;
mod lines;
mod sampling;
mod source;

pub use sampling::sample_product;

//! Scalar terms as slots of vectors.
#![tactic(auto)]

mod batcher;
mod batching;
mod home;
mod place;
mod sum;
mod table;
mod written;

pub use batching::batch;

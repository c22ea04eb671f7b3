//! The product of two ciphertexts over the integers, times t / q and rounded. No call but `open` takes memory.
#![tactic(auto)]

mod limbs;
mod multiplier;
mod part;
mod product;
mod room;
mod round;
mod shift;
mod tensor;
mod wide;

pub use tensor::Tensor;

//! Polynomials modulo q = 2^58 by their digits in base 4. No call takes memory.
#![tactic(auto)]

mod digits;
mod law;

pub use digits::{digits_into, digits_plain_into};
pub use law::digits_add_up;

#[cfg(test)]
mod tests;

//! Polynomials modulo 2^58, where x^n is -1. No call but `zero` takes memory.
#![tactic(auto)]

mod add;
mod lanes;
mod plain;
mod poly;
mod product;
mod residue;
mod row;
mod scale;
mod small;
mod sparse;
mod sub;
mod turn;
mod words;

pub use poly::Poly;

#[cfg(test)]
mod tests;

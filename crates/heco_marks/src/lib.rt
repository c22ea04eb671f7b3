//! A set of numbers below a bound, from which the k-th by rising number is had, as a tree of counts.
#![tactic(auto)]

mod marks;
mod tree;

pub use marks::Marks;

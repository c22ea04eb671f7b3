//! Scalar nodes, and how many gates batching makes of them.
#![tactic(auto)]

#[cfg(test)]
mod rows;
#[cfg(test)]
mod scalars;

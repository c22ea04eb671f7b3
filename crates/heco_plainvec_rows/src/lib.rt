//! Products by plain vectors in place of multiples: which are gathered, and what circuits are then.
#![tactic(auto)]

#[cfg(test)]
mod files;
#[cfg(test)]
mod gathered;
#[cfg(test)]
mod many;

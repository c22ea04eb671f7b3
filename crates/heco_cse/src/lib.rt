//! Vector nodes, each once; and the nodes that roots use.
#![tactic(auto)]

mod cons;
mod dead;

pub use cons::Cons;
pub use dead::drop_dead;

#[cfg(test)]
mod tests;

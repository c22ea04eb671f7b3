//! An intermediate form in an arena: nodes by number, over any dialect, and passes that keep what its roots mean.
#![tactic(auto)]

mod builder;
mod dialect;
mod gates;
mod home;
mod pass;
mod scalar;
mod vector;

pub use builder::{Builder, Ir};
pub use dialect::{Dialect, NodeId};
pub use gates::{nodes_have_the_cost, nodes_have_the_gates_of_their_terms};
pub use home::{Home, Homes};
pub use pass::{Rewrite, run_pass};
pub use scalar::{SNode, Scalar, scalar_nodes_have_their_terms};
pub use vector::{VNode, Vector, one_term_has_one_node, vector_nodes_have_their_terms};

#[cfg(test)]
mod tests;

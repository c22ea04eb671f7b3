//! The text of a tree: its tokens with one space between, and parentheses only where the tree needs them.
#![tactic(auto)]

mod definition;
mod expression;
mod line;
mod mark;
mod printing;
mod statement;

pub use printing::print;

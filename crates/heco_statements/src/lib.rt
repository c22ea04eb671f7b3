//! Reading statements and whole sources from a list of lexemes.
#![tactic(auto)]

mod block;
mod definition;
mod source;
mod statement;

pub use source::whole;

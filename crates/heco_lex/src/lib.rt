//! The tokens of a source text, and places in it.
#![tactic(auto)]

mod bytes;
mod piece;
mod place;
mod rule;
mod split;
mod token;

pub use place::{Place, place_of};
pub use rule::Rule;
pub use split::{LexErr, tokens};
pub use token::{Token, TokenKind};

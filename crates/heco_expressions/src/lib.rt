//! Reading expressions from a list of lexemes.
#![tactic(auto)]

mod cursor;
mod expression;
mod stop;

pub use cursor::Cursor;
pub use expression::sum;
pub use stop::Stop;

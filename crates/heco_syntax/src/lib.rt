//! The syntax of a source: lexemes, the tree, and the productions between them.
#![tactic(auto)]

mod first;
mod lexeme;
mod lexing;
mod port;
mod tree;

pub use first::First;
pub use lexeme::Lexeme;
pub use lexing::lexemes;
pub use tree::{Def, Expr, Ident, Num, Param, ProdPart, SetOp, Source, Stmt, SumPart};

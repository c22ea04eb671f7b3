//! The tree of a source text.
#![tactic(auto)]

mod read;

pub use heco_print::print;
pub use heco_syntax::{Expr, Ident, Num, Param, ProdPart, SetOp, Source, Stmt, SumPart};
pub use read::{ParseErr, SOURCE_LIMIT, parse};

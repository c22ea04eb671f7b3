use crate::tree::Ident;
use heco_lex::Place;

/// The first token of a statement.
#[derive(Debug, Drop)]
pub enum First {
    Int(Place),
    Secret(Place),
    For(Place),
    If(Place),
    Name(Ident),
}

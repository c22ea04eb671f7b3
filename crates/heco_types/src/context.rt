/// Where an expression stands, as far as secret names are concerned.
#[derive(Clone, Copy, Debug, PartialEq, Eq)]
pub enum Context {
    Anywhere,
    Index,
    Bound,
    IntValue,
}

/// A public number, or a secret.
#[derive(Clone, Copy, Debug)]
pub enum Value<V> {
    Public(i64),
    Secret(V),
}

/// An element of a name's list, and where it stands.
#[derive(Clone, Copy, Debug)]
pub struct Element<V> {
    pub list: usize,
    pub place: usize,
    pub value: Value<V>,
}

/// An operator between two values.
#[derive(Clone, Copy, Debug, PartialEq, Eq)]
pub enum Operator {
    Plus,
    Minus,
    Times,
}

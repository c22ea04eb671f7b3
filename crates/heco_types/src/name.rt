/// What a name was declared as.
#[derive(Clone, Copy, Debug, PartialEq, Eq)]
pub enum Sort {
    Input,
    Output,
    Secret,
    Int,
    /// The name of a loop.
    Counter,
    /// A parameter of a definition.
    Argument,
    /// A definition with so many parameters, and how many definitions it calls within one another, itself counted.
    Definition { params: usize, depth: u32 },
}

/// What a visible name stands for.
#[derive(Clone, Copy, Debug, PartialEq, Eq)]
pub struct Entity {
    pub sort: Sort,
    /// Whether it was declared with a length in brackets.
    pub array: bool,
}

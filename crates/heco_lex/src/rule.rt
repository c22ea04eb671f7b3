/// A rule of reading, of typing or of execution that a source breaks.
#[derive(Clone, Copy, Debug, PartialEq, Eq)]
pub enum Rule {
    BadByte,
    Syntax,
    TooNested,
    UnknownParams,
    UnknownName,
    Redeclared,
    NotAssignable,
    Kind,
    SecretIndex,
    SecretBound,
    SecretToPublic,
    Length,
    IndexRange,
    PublicRange,
    TooLarge,
}

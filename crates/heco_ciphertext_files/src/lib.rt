//! The files of ciphertexts: encrypted inputs, and results.
#![tactic(auto)]

mod kind;
mod parts;
mod reading;
mod writing;

pub use kind::FileKind;
pub use reading::read_cts;
pub use writing::write_cts;

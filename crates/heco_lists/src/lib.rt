//! Lists of places, words and errors in a file: read and judged field by field, and written.
#![tactic(auto)]

mod error;
mod reading;
mod writing;

pub use error::FileErr;
pub use reading::{errors_at, sparse_at, words_at};
pub use writing::{put_bytes, put_words};

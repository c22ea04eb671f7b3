//! The files and texts that commands read and write.
#![tactic(auto)]

pub use heco_ciphertext_files::{FileKind, read_cts, write_cts};
pub use heco_key_files::{read_eval, read_secret, write_eval, write_secret};
pub use heco_lists::FileErr;
pub use heco_texts::{InputErr, InputRule, print_outputs, read_inputs};

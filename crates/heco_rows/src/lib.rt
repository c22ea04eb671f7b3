//! Ciphertexts of two rows of values: encrypted together, and decrypted row by row.
#![tactic(auto)]

mod decryption;
mod encryption;

pub use decryption::decrypt_two;
pub use encryption::encrypt_two;

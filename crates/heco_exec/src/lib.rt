//! What `exec` gathers, up to its first write, and the headline: what it has done where it is done.
#![tactic(auto)]

mod chain;
mod files;
mod keys;
mod laws;

pub use chain::chain_product;
pub use files::run_files;
pub use keys::{made_keys, read_key_words};
pub use laws::{done_is_executed, executed_files_are_of_one_chain, given_is_ready};

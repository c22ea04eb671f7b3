//! The files of the secret key and of the evaluation key.
#![tactic(auto)]

mod evaluation;
mod header;
mod laws;
mod read_key;
mod read_switch;
mod secret;
mod writing;

pub use evaluation::read_eval;
pub use header::{behind_header, broken_at};
pub use laws::made_keys_have_a_file;
pub use read_switch::poly_at;
pub use secret::{read_secret, write_secret};
pub use writing::{put_poly, write_eval};

//! Key and encryption material: within bounds, its files, and drawn from a seed.
#![tactic(auto)]

mod drawing;
mod error;
mod file_length;
mod read_rows;
mod reading;
mod words;
mod writing;

pub use drawing::{draw_enc, draw_keys};
pub use error::MatErr;
pub use heco_draw::draw_values;
pub use reading::{read_enc, read_keys};
pub use words::{EncRow, EncWords, KeyWords, SwitchRow, SwitchWords};
pub use writing::{write_enc, write_keys};

//! What every command of the program does alike: it reads, judges, writes and prints, and says why it failed.
#![tactic(auto)]

mod finishing;
mod outcome;
mod product;
mod reading;
mod report;
mod words;

pub use finishing::finish;
pub use outcome::{Outcome, Refusal};
pub use product::{Planned, Product, printing, storing, storing_two};
pub use reading::read_bytes;
pub use report::report_outcome;
pub use words::name_of;

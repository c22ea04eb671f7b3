//! For the tests of commands: files in memory, texts with marks, and steps that make files and give commands.
#![tactic(auto)]

mod bench;
mod counted;
mod faulty;
mod files;
mod pickers;
mod row;
mod text;
mod watching;

pub use bench::Bench;
pub use faulty::Faulty;
pub use files::words_of;
pub use row::row_holds;
pub use text::text_of;

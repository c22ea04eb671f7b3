//! What every layer shares: want of memory, lists, the presets with their arithmetic, words, shapes and values.
#![tactic(auto)]

mod arithmetic;
mod decimal;
mod list;
mod memory;
mod needs;
mod preset;
mod room;
mod shape;
mod word;

pub use arithmetic::{Q_MASK, add_t, centre_q, centre_t, mul_t, neg_t, pow_t, scaled};
pub use decimal::put_number;
pub use list::{Bytes, List};
pub use memory::Memory;
pub use needs::KeyNeeds;
pub use preset::Preset;
pub use room::Room;
pub use shape::{Inputs, Outputs, Shape, Values};
pub use word::{is_letter, is_word, is_word_byte};

#[cfg(test)]
mod tests;

//! The slots of plaintexts: N numbers modulo t that sums, products and turns of a plaintext act on one by one.
#![tactic(auto)]

mod decode;
mod decode_two;
mod encode;
mod encode_two;
mod laws;
mod powers;
mod spread;
mod table;
mod term;
mod weight;

pub use laws::{
    both_rows_come_back, decode_inverts_encode, one_row_leaves_the_other, slots_of_a_constant,
    slots_of_a_difference, slots_of_a_multiple, slots_of_a_negative, slots_of_a_product,
    slots_of_a_sum, slots_of_a_turn, slots_of_the_decoded, slots_of_the_weighed,
};
pub use table::SlotTable;

#[cfg(test)]
mod tests;

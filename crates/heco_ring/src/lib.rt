//! The ring of polynomials modulo x^n + 1 and its slots: definitions and laws. A law is the contract of a function that does nothing.
#![tactic(auto)]

mod ring_laws;
mod slot_laws;

pub use ring_laws::{
    one_is_neutral, product_distributes, product_is_associative, product_is_commutative,
    sums_form_a_group, turn_is_a_homomorphism, turns_compose,
};
pub use slot_laws::{
    decode_inverts_encode, slots_rotate, value_of_a_constant, value_of_a_multiple,
    value_of_a_negative, value_of_a_product, value_of_a_sum, value_of_a_turn,
    values_go_by_remainders,
};

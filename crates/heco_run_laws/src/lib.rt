//! The ciphertext run of a circuit, and what its wires carry.
#![tactic(auto)]

mod laws;

pub use laws::{
    encodings_are_messages, encryptions_are_fresh, made_keys_are_for_the_gates,
    measured_noises_keep_to_their_bounds, messages_mean_their_rows, rows_are_independent,
    rows_decrypt_to_the_meaning, rows_of_messages, runs_are_in_order, turn_keys_are_found,
    two_rows_decrypt_apart, wires_carry_their_messages, wires_have_their_parts,
    wires_keep_their_noise,
};

//! The scheme of Fan and Vercauteren as definitions over lists of coefficients, and the noise of each gate.
#![tactic(auto)]

mod noise_laws;

pub use noise_laws::{
    noise_of_a_difference, noise_of_a_fresh_encryption, noise_of_a_multiple, noise_of_a_negative,
    noise_of_a_product, noise_of_a_relinearisation, noise_of_a_shift, noise_of_a_sum,
    noise_of_a_turn, noise_of_a_weighed, quiet_ciphertexts_decrypt, words_weigh_alike,
};

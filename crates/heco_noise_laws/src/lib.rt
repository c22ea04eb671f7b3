//! How noise grows: the noise of a value for a message, and what the gates do to it.
#![tactic(auto)]

mod laws;

pub use laws::{
    noise_goes_by_remainders, noise_of_a_multiple, noise_of_a_negative, noise_of_a_plain_product,
    noise_of_a_product, noise_of_a_sum, noise_of_a_turn, small_noise_decrypts,
};

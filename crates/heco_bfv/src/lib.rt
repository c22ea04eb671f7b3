//! Encryption, decryption and the gates of the scheme of Fan and Vercauteren. No gate takes memory, and each always
//! succeeds; nor does decryption.
#![tactic(auto)]

mod add;
mod ciphertext;
mod decryption;
mod encryption;
mod gates;
mod laws;
mod linear;
mod mul;
mod neg;
mod plain_vector;
mod relin;
mod round_trip;
mod scale;
mod shift;
mod sub;
mod switcher;
mod switching;
mod turn;
mod weigh;
mod words;

pub use ciphertext::Ct;
pub use decryption::{Scratch, decrypt, decrypt_poly};
pub use encryption::{encrypt, encrypt_poly};
pub use gates::Gates;
pub use laws::{decryption_inverts_encryption, slots_of_the_messages};
pub use plain_vector::weigher;
pub use round_trip::decrypt_after_encrypt;

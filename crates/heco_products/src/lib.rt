//! What a circuit's inputs are encrypted to, and what its result is decrypted to.
#![tactic(auto)]

mod both_rows;
mod decrypting;
mod encrypting;
mod encrypting_pairs;
mod laws;
mod wires;

pub use both_rows::rows_texts;
pub use decrypting::outputs_text;
pub use encrypting::{encrypted_inputs, inputs_file};
pub use encrypting_pairs::encrypted_pairs;
pub use laws::wires_take_their_ciphertexts;
pub use wires::{output_wire_count, output_wires};

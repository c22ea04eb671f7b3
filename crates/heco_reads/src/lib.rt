//! The reads of a command: each kind of file by the number of its word, judged before anything is done with it.
#![tactic(auto)]

mod ciphertexts_file;
mod circuit_file;
mod encryptions_file;
mod key_files;
mod material_file;
mod second_file;
mod source;
mod values_file;

pub use ciphertexts_file::read_ciphertexts;
pub use circuit_file::read_circuit;
pub use encryptions_file::read_encryptions;
pub use key_files::{read_evaluation, read_secret};
pub use material_file::read_material;
pub use second_file::read_second_inputs;
pub use source::read_source;
pub use values_file::{read_inputs, read_values_file};

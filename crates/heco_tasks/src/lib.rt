//! What each command reads, judges and gives, up to its first write.
#![tactic(auto)]

mod circuits;
mod compile;
mod decrypt;
mod draw;
mod encrypt;
mod keys;
mod laws;
mod measure;
mod plain;
mod run;
mod running;
mod show;

pub use circuits::{input_count, inputs_of};
pub use compile::{compile_product, compiled};
pub use decrypt::gather_decrypt;
pub use draw::gather_draw;
pub use encrypt::gather_encrypt;
pub use keys::gather_keys;
pub use laws::{
    chain_files_are_ready, done_is_measured, encrypted_files_are_of_the_chain, made_files_run,
};
pub use measure::gather_measure;
pub use plain::gather_plain;
pub use run::run_product;
pub use running::{judge_keys, run_circuit};
pub use show::gather_show;

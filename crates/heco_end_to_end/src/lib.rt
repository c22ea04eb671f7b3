//! From key material, encryption material and values to what decrypting the result of a run prints.
#![tactic(auto)]

mod laws;

pub use laws::{
    commands_in_a_row_print_the_meaning, decrypted_runs_print_the_meaning, made_files_are_read,
    measured_runs_keep_to_their_bounds, results_are_ciphertexts, rows_print_the_meaning,
};

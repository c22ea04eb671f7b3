//! The sum of consecutive slots, by turns and additions.
#![tactic(auto)]

mod run;

pub use run::fold_run;

#[cfg(test)]
mod tests;

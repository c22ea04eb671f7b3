//! The top call: all that the program does, over a store and two sinks that are handed in.
#![tactic(auto)]

mod command;
mod compile;
mod exec;
mod gather;
mod pair;
mod run;
mod sample;
mod seed;
mod top;

pub use heco_jobs::{Outcome, Refusal};
pub use heco_texts::InputRule;
pub use top::{heco, refuse_words};

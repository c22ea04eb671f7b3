//! Texts of inputs, and what reading answers.
#![tactic(auto)]

#[cfg(test)]
mod answer;
#[cfg(test)]
mod long;
#[cfg(test)]
mod rows;

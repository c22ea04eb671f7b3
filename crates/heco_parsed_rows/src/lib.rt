//! Sources, their tokens, what reading them answers, and what is printed of them.
#![tactic(auto)]

#[cfg(test)]
mod printed;
#[cfg(test)]
mod rows;
#[cfg(test)]
mod text;
#[cfg(test)]
mod tokens;

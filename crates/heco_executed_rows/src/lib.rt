//! Sources as reading gives them, executed on numbers.
#![tactic(auto)]

#[cfg(test)]
mod answer;
#[cfg(test)]
mod definitions;
#[cfg(test)]
mod limits;
#[cfg(test)]
mod rows;

//! Sources as reading gives them, and what typing answers.
#![tactic(auto)]

#[cfg(test)]
mod answer;
#[cfg(test)]
mod definitions;
#[cfg(test)]
mod parameters;
#[cfg(test)]
mod rows;
#[cfg(test)]
mod shapes;

//! Sources as text, and the terms of their output elements as nodes.
#![tactic(auto)]

#[cfg(test)]
mod answer;
#[cfg(test)]
mod batched;
#[cfg(test)]
mod definitions;
#[cfg(test)]
mod limits;
#[cfg(test)]
mod rows;

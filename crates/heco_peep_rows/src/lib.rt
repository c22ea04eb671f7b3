//! Circuits, and what comes of them by passes.
#![tactic(auto)]

#[cfg(test)]
mod files;
#[cfg(test)]
mod passed;
#[cfg(test)]
mod passes;

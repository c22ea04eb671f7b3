//! Sources through `compile`: what their circuits cost, need and mean, and which sources are too deep.
#![tactic(auto)]

#[cfg(test)]
mod accepted;
#[cfg(test)]
mod circuit;
#[cfg(test)]
mod gathered;
#[cfg(test)]
mod refused;
#[cfg(test)]
mod sample;
#[cfg(test)]
mod source;

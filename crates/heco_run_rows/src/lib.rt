//! Worked runs of circuits on ciphertexts.
#![tactic(auto)]

#[cfg(test)]
mod circuits;
#[cfg(test)]
mod given;
#[cfg(test)]
mod refused;
#[cfg(test)]
mod runs;
#[cfg(test)]
mod steps;
#[cfg(test)]
mod weighed;
#[cfg(test)]
mod works;

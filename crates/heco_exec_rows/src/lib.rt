//! The commands that go the whole way, `exec` and `sample`, beside those that they join.
#![tactic(auto)]

#[cfg(test)]
mod accepted;
#[cfg(test)]
mod asked_twice;
#[cfg(test)]
mod faults;
#[cfg(test)]
mod material;
#[cfg(test)]
mod refused;
#[cfg(test)]
mod sample;
#[cfg(test)]
mod sample_words;

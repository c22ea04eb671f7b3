//! The command `pair`, beside those that it joins.
#![tactic(auto)]

#[cfg(test)]
mod accepted;
#[cfg(test)]
mod asked_twice;
#[cfg(test)]
mod faults;
#[cfg(test)]
mod material;
#[cfg(test)]
mod refused;

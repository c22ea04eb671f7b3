//! Material: digests of its files, why files are refused, and what is drawn.
#![tactic(auto)]

#[cfg(test)]
mod digests;
#[cfg(test)]
mod files;
#[cfg(test)]
mod lists;
#[cfg(test)]
mod refusals;

//! Worked encryptions and gates, by material made by hand.
#![tactic(auto)]

#[cfg(test)]
mod constants;
#[cfg(test)]
mod decrypted;
#[cfg(test)]
mod encrypted;
#[cfg(test)]
mod gates;
#[cfg(test)]
mod material;
#[cfg(test)]
mod owner;
#[cfg(test)]
mod parse;
#[cfg(test)]
mod plain_switch;
#[cfg(test)]
mod switch_rows;

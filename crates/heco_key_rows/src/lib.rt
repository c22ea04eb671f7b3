//! Keys and products of ciphertexts, by numbers that are known.
#![tactic(auto)]

#[cfg(test)]
mod constant;
#[cfg(test)]
mod keys;
#[cfg(test)]
mod plain_tensor;
#[cfg(test)]
mod tensor;

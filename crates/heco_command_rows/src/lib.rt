//! Commands over files in memory, through the top call, and what comes of them.
#![tactic(auto)]

#[cfg(test)]
mod asked;
#[cfg(test)]
mod asked_rows;
#[cfg(test)]
mod chain;
#[cfg(test)]
mod commands;
#[cfg(test)]
mod measured;
#[cfg(test)]
mod passed;
#[cfg(test)]
mod plain;

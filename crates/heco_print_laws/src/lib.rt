//! What `print` prints spells the tree again, up to places.
#![tactic(auto)]

mod laws;

pub use laws::printed_sources_spell_alike;

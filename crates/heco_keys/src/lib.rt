//! Keys: the secret key, the evaluation key with its switch keys, and how they are made from key material.
#![tactic(auto)]

mod coefficients;
mod eval;
mod laws;
mod make_switch;
mod making;
mod masked;
mod row_images;
mod secret;
mod sources;
mod switch_key;

pub use coefficients::poly_of;
pub use eval::Eval;
pub use laws::made_keys_are_keys;
pub use making::make;
pub use secret::Secret;
pub use sources::exponent;
pub use switch_key::SwitchKey;

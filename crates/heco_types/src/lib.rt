//! The typing rules of a source: the first one that it breaks, or the source with what they give.
#![tactic(auto)]

mod context;
mod definitions;
mod depths;
mod expressions;
mod laws;
mod name;
mod parameters;
mod refusal;
mod rules;
mod scope;
mod shapes;
mod statements;
mod typed;

pub use context::Context;
pub use laws::each_name_is_tried;
pub use name::{Entity, Sort};
pub use refusal::TypeErr;
pub use typed::{Typed, check};

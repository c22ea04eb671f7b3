//! Rewrites of single gates as boxed passes over windows, and a list of passes over a circuit.
#![tactic(auto)]

mod changing;
mod dropping;
mod fitting;
mod judging;
mod laws;
mod living;
mod looking;
mod marking;
mod neg;
mod once;
mod over_gates;
mod pass;
mod running;
mod scale;
mod starting;
mod sub;
mod window;

pub use laws::passed_circuits_are_no_worse;
pub use neg::NegPass;
pub use pass::Pass;
pub use running::run_passes;
pub use scale::ScalePass;
pub use sub::SubPass;
pub use window::{Swap, Window};

//! Products of polynomials modulo x^n + 1 by a transform modulo P: the values at the roots of x^n + 1, in place.
#![tactic(auto)]

mod bit_field;
mod factor;
mod forward;
mod four;
mod gather;
mod half;
mod image;
mod inverse;
mod preset;
mod product;
mod residue;
mod signed;
mod table;
mod transform;

pub use factor::{Factor, P};
pub use half::{HalfSums, Halves};
pub use image::{Image, ImageSum};
pub use product::Limbs;
pub use transform::Transform;

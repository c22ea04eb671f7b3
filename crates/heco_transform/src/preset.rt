ghost use Rattle.std.specs.Prelude.{◌≡◌, ◌≤◌, ◌^◌, IfOk};

use crate::Transform;
use heco_nums::{Memory, Preset};
use std::alloc::Global;

/// The logarithm of n.
fn depth(p: &Preset) -> u32
    ensures value { 2 ^ result ≡ p.now.n }
    ensures small { result ≤ 10 }
{
    match p.id {
        1 => 4,
        2 | 4 => 6,
        3 => 7,
        _ => 10,
    }
}

impl Transform {
    /// The tables for the polynomials of a preset; Memory where there is none.
    pub fn of_preset(alloc: Global, p: &Preset) -> Result<Transform, Memory>
        ensures { IfOk result (λ f. 2 ^ f.depth ≡ p.now.n) }
    {
        Transform::open(alloc, depth(p))
    }
}

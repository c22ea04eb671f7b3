ghost use Rattle.std.specs.Prelude.{◌≡◌, ◌≤◌, [], length, IfOk};
ghost use Rattle.std.specs.List.{range_with_len};
ghost use Rattle.heco_circuit.specs.Bounds.{fresh_bounds};
ghost use Rattle.heco_circuit.specs.Plans.{input_parts};

use crate::changing::Changed;
use heco_circuit::{fresh_bounds, input_parts};
use heco_nums::{List, Memory, Preset, Shape};
use heco_rewrites::input_names;
use std::alloc::Global;

/// Before the first look: no gates, and the wires of the inputs.
pub fn started(alloc: Global, p: &Preset, inputs: &[Shape]) -> Result<Changed, Memory>
    requires { length inputs.now ≤ 256 }
    ensures gates { IfOk result (λ d. d.gates ≡ []) }
    ensures names { IfOk result (λ d. d.names ≡ range_with_len 0 (length inputs.now)) }
    ensures parts { IfOk result (λ d. d.parts ≡ input_parts inputs.now) }
    ensures bounds { IfOk result (λ d. d.bounds ≡ fresh_bounds p.now.id inputs.now) }
{
    let names = input_names(alloc, inputs.len() as u32)?;
    let parts = input_parts(alloc, inputs)?;
    let bounds = fresh_bounds(alloc, p, inputs)?;
    let gates = List::new(alloc);
    Ok(Changed {
        gates,
        names,
        parts,
        bounds,
    })
}

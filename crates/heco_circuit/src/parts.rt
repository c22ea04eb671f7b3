ghost use Rattle.std.specs.Prelude.{◌≡◌, max, slice_index, IfOk};
ghost use Rattle.heco_circuit.specs.Plans.{input_parts};
ghost use Rattle.heco_circuit.specs.Validity.{parts_of};

use crate::gate::Gate;
use heco_nums::{List, Memory, Shape};
use std::alloc::Global;

/// Two parts for each input.
pub fn input_parts(alloc: Global, inputs: &[Shape]) -> Result<List<u8>, Memory>
    ensures { IfOk result (λ parts. parts ≡ input_parts inputs.now) }
{
    let mut parts = List::new(alloc);
    let mut rest = inputs;
    while let [_, after @ ..] = rest {
        parts.push(2)?;
        rest = after;
    }
    Ok(parts)
}

/// The parts of a wire, which are none behind all wires.
pub fn part_count(parts: &[u8], wire: u32) -> u8
    ensures { result ≡ slice_index parts.now wire }
{
    match parts.get(wire as usize) {
        Some(count) => *count,
        None => 0,
    }
}

/// How many parts a gate gives.
pub fn parts_of(parts: &[u8], gate: Gate) -> u8
    ensures { result ≡ parts_of parts.now gate }
{
    match gate {
        Gate::Neg { a }
        | Gate::Scale { c: _, a }
        | Gate::Shift { c: _, a }
        | Gate::Weigh { v: _, a } => part_count(parts, a),
        Gate::Add { a, b } | Gate::Sub { a, b } => {
            part_count(parts, a).max(part_count(parts, b))
        }
        Gate::Mul { .. } => 3,
        Gate::Relin { .. } | Gate::Turn { .. } => 2,
    }
}

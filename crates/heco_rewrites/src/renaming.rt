ghost use Rattle.std.specs.Prelude.{◌≡◌, slice_index, IfOk};
ghost use Rattle.std.specs.List.{range_with_len};
ghost use Rattle.heco_rewrites.specs.Wires.{over};

use heco_circuit::Gate;
use heco_nums::{List, Memory};
use std::alloc::Global;

/// The name of a wire, one of the names of all wires in order.
pub fn name_at(names: &[u32], wire: u32) -> u32
    ensures { result ≡ slice_index names.now wire }
{
    match names.get(wire as usize) {
        Some(name) => *name,
        None => 0,
    }
}

/// The names of so many inputs, each of which keeps its number.
pub fn input_names(alloc: Global, inputs: u32) -> Result<List<u32>, Memory>
    ensures { IfOk result (λ names. names ≡ range_with_len 0 inputs) }
{
    let mut names = List::new(alloc);
    for i in 0..inputs {
        names.push(i)?;
    }
    Ok(names)
}

/// The gate over the wires of these names.
pub fn over(names: &[u32], gate: Gate) -> Gate
    ensures { result ≡ over (slice_index names.now) gate }
{
    match gate {
        Gate::Neg { a } => Gate::Neg {
            a: name_at(names, a),
        },
        Gate::Add { a, b } => Gate::Add {
            a: name_at(names, a),
            b: name_at(names, b),
        },
        Gate::Sub { a, b } => Gate::Sub {
            a: name_at(names, a),
            b: name_at(names, b),
        },
        Gate::Mul { a, b } => Gate::Mul {
            a: name_at(names, a),
            b: name_at(names, b),
        },
        Gate::Relin { a } => Gate::Relin {
            a: name_at(names, a),
        },
        Gate::Scale { c, a } => Gate::Scale {
            c,
            a: name_at(names, a),
        },
        Gate::Shift { c, a } => Gate::Shift {
            c,
            a: name_at(names, a),
        },
        Gate::Turn { r, a } => Gate::Turn {
            r,
            a: name_at(names, a),
        },
        Gate::Weigh { v, a } => Gate::Weigh {
            v,
            a: name_at(names, a),
        },
    }
}

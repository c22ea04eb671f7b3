ghost use Rattle.std.specs.Prelude.{◌≡◌, ◌+◌, ◌<◌, ◌^◌, false, length, map, replicate, slice_index, IfOk};
ghost use Rattle.heco_rewrites.specs.Dropping.{needed_gates};
ghost use Rattle.heco_rewrites.specs.Wires.{output_over};
ghost use Rattle.heco_peep.specs.inside.Dropped.{kept_so_far};
ghost use Rattle.heco_peep.specs.Passed.{shows};

use crate::dropping::{Staying, keep};
use crate::marking::{mark_needed, mark_outputs};
use heco_circuit::{Gate, Output};
use heco_nums::{List, Memory};
use heco_rewrites::outputs_over;
use std::alloc::Global;

/// The gates that outputs need, where each wire has a mark and none is set yet.
fn keep_needed(
    alloc: Global,
    marks: &mut [bool],
    inputs: u32,
    gates: &[Gate],
    outputs: &[Output],
) -> Result<Staying, Memory>
    requires marks { marks.old ≡ replicate (inputs + length gates.now) false }
    requires few { inputs + length gates.now < 2 ^ 32 }
    ensures { IfOk result (λ s. kept_so_far s ≡ needed_gates (shows outputs.now) inputs gates.now) }
{
    mark_outputs(marks, outputs);
    mark_needed(marks, inputs, gates);
    keep(alloc, inputs, marks, gates)
}

/// The gates that outputs need, behind so many inputs, and the new number of each wire.
fn needed_gates(
    alloc: Global,
    inputs: u32,
    gates: &[Gate],
    outputs: &[Output],
) -> Result<Staying, Memory>
    requires { inputs + length gates.now < 2 ^ 32 }
    ensures { IfOk result (λ s. kept_so_far s ≡ needed_gates (shows outputs.now) inputs gates.now) }
{
    let mut marks = vec![in alloc; false; inputs as usize + gates.len()]?;
    keep_needed(alloc, marks.as_mut_slice(), inputs, gates, outputs)
}

/// The gates without those that no output needs, behind so many inputs, and the outputs over the gates that are left.
pub fn without_dead(
    alloc: Global,
    inputs: u32,
    gates: &[Gate],
    outputs: &[Output],
) -> Result<(List<Gate>, List<Output>), Memory>
    requires { inputs + length gates.now < 2 ^ 32 }
    ensures gates { IfOk result (λ r. r.0 ≡ (needed_gates (shows outputs.now) inputs gates.now).gates) }
    ensures outputs { IfOk result (λ r. r.1 ≡ map (output_over (slice_index (needed_gates (shows outputs.now) inputs gates.now).names)) outputs.now) }
{
    let s = needed_gates(alloc, inputs, gates, outputs)?;
    let outputs = outputs_over(alloc, s.names.as_slice(), outputs)?;
    Ok((s.gates, outputs))
}

ghost use Rattle.std.specs.Prelude.{◌≡◌, [], IfOk, OnOk};
ghost use Rattle.heco_circuit.specs.Circuits.{IsCircuit};
ghost use Rattle.heco_peep.specs.inside.Changing.{progress};
ghost use Rattle.heco_peep.specs.Passed.{after, moved, renamed, tried, without_dead};
ghost use Rattle.heco_peep.specs.inside.Ready.{IsReady, HasFewWires};

use crate::changing::Changed;
use crate::judging::is_kept;
use crate::living::without_dead;
use crate::over_gates::look_over;
use crate::pass::Pass;
use heco_circuit::{Circuit, Gate, Output};
use heco_nums::{List, Memory, Preset};
use heco_rewrites::{copied_inputs, copied_vectors, outputs_over};
use std::alloc::Global;

/// The changed gates and the outputs over them, without what no output needs.
fn living(
    alloc: Global,
    c: &Circuit,
    changed: &Changed,
) -> Result<(List<Gate>, List<Output>), Memory>
    requires { HasFewWires c.now changed.now }
    ensures gates { IfOk result (λ r. r.0 ≡ (without_dead (renamed c.now (progress changed.now []))).gates) }
    ensures outputs { IfOk result (λ r. r.1 ≡ (without_dead (renamed c.now (progress changed.now []))).outputs) }
{
    let outputs = outputs_over(alloc, changed.names.as_slice(), c.outputs().as_slice())?;
    without_dead(
        alloc,
        c.inputs().len() as u32,
        changed.gates.as_slice(),
        outputs.as_slice(),
    )
}

/// The circuit of the changed gates, without what no output needs.
fn brought(alloc: Global, p: &Preset, c: &Circuit, changed: &Changed) -> Result<Circuit, Memory>
    requires number { p.now.id ≡ c.now.preset }
    requires few { HasFewWires c.now changed.now }
    requires valid { IsCircuit (without_dead (renamed c.now (progress changed.now []))) }
    ensures { IfOk result (λ d. d ≡ without_dead (renamed c.now (progress changed.now []))) }
{
    let (gates, outputs) = living(alloc, c, changed)?;
    let inputs = copied_inputs(alloc, c.inputs().as_slice())?;
    let vectors = copied_vectors(alloc, c.vectors().as_slice())?;
    Ok(Circuit::make_with(p, inputs, vectors, gates, outputs))
}

/// The circuit that a pass brings.
fn tried(
    alloc: Global,
    p: &Preset,
    weights: &[u64],
    c: &Circuit,
    pass: &mut Box<dyn Pass>,
) -> Result<Circuit, Memory>
    requires { IsReady p.now weights.now c.now }
    ensures tried { IfOk result (λ d. d ≡ tried p.now c.now (handed pass.old).rule (handed pass.old).state) }
    ensures moved { OnOk result (handed pass.new ≡ moved p.now c.now (handed pass.old)) }
    ensures same { (handed pass.new).rule ≡ (handed pass.old).rule }
{
    let changed = look_over(alloc, p, weights, c, pass)?;
    brought(alloc, p, c, &changed)
}

/// The circuit after a pass: the one that the pass brings, or the circuit as it was where that one is not kept.
pub fn pass_over(
    alloc: Global,
    p: &Preset,
    weights: &[u64],
    c: Circuit,
    pass: &mut Box<dyn Pass>,
) -> Result<Circuit, Memory>
    requires { IsReady p.now weights.now c }
    ensures after { IfOk result (λ d. d ≡ after p.now c (handed pass.old).rule (handed pass.old).state) }
    ensures ready { IfOk result (λ d. IsReady p.now weights.now d) }
    ensures moved { OnOk result (handed pass.new ≡ moved p.now c (handed pass.old)) }
    ensures same { (handed pass.new).rule ≡ (handed pass.old).rule }
{
    let d = tried(alloc, p, weights, &c, pass)?;
    if is_kept(alloc, &c, &d)? {
        return Ok(d);
    }
    Ok(c)
}

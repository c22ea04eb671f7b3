ghost use Rattle.std.specs.Prelude.{◌≡◌, ◌<◌, ◌+◌, ◌^◌, true, length, slice_index, All, IsTrue, IfSome, OnOk};
ghost use Rattle.heco_noise.specs.Rows.{IsQuiet};
ghost use Rattle.heco_circuit.specs.Bounds.{fresh_bounds, is_below, IsLight};
ghost use Rattle.heco_circuit.specs.Plans.{input_parts};
ghost use Rattle.heco_rewrites.specs.Wires.{over};
ghost use Rattle.heco_peep.specs.Rules.{is_below_in, is_shown, IsWindow};
ghost use Rattle.heco_peep.specs.Looks.{look_behind, window};
ghost use Rattle.heco_peep.specs.inside.Changing.{progress, IsChanged, HasGrown, HasTaken};

use crate::fitting::fits;
use crate::looking::ask;
use crate::pass::Pass;
use crate::window::Swap;
use heco_circuit::{Gate, bound_of, parts_of};
use heco_nums::{List, Memory, Preset, Shape};
use heco_rewrites::over;

/// The circuit as changed so far: its gates, the wire that each old wire is now, and what is known of its wires.
#[derive(Debug, Drop)]
pub struct Changed {
    pub gates: List<Gate>,
    pub names: List<u32>,
    pub parts: List<u8>,
    pub bounds: List<u128>,
}

/// One gate more, and the wire that its old wire is now.
fn grow(
    p: &Preset,
    inputs: &[Shape],
    weights: &[u64],
    changed: &mut Changed,
    gate: Gate,
    name: u32,
) -> Result<(), Memory>
    requires stands { IsChanged p.now.id weights.now inputs.now changed.old }
    requires constant { IsTrue (is_below p.now.t gate) }
    requires light { All IsLight weights.now }
    requires quiet { All IsQuiet changed.old.bounds }
    ensures grown { OnOk result (HasGrown changed.old changed.new gate name) }
    ensures stands { OnOk result (IsChanged p.now.id weights.now inputs.now changed.new) }
{
    let _valid = inputs.len();
    let parts = parts_of(changed.parts.as_slice(), gate);
    let bound = bound_of(p, weights, changed.bounds.as_slice(), gate);
    changed.gates.push(gate)?;
    changed.names.push(name)?;
    changed.parts.push(parts)?;
    changed.bounds.push(bound)
}

/// The gate, or what was answered in its place where that fits.
pub fn put(
    p: &Preset,
    inputs: &[Shape],
    weights: &[u64],
    changed: &mut Changed,
    own: u32,
    at: Gate,
    answer: Option<Swap>,
) -> Result<(), Memory>
    requires stands { IsChanged p.now.id weights.now inputs.now changed.old }
    requires constant { IsTrue (is_below p.now.t at) }
    requires answer { IfSome answer (λ x. IsTrue (is_below_in p.now.t x)) }
    requires light { All IsLight weights.now }
    requires quiet { All IsQuiet changed.old.bounds }
    ensures taken { OnOk result (HasTaken p.now.id weights.now own changed.old changed.new at answer) }
    ensures stands { OnOk result (IsChanged p.now.id weights.now inputs.now changed.new) }
{
    let Some(x) = answer else {
        return grow(p, inputs, weights, changed, at, own);
    };
    if !fits(
        p,
        weights,
        changed.parts.as_slice(),
        changed.bounds.as_slice(),
        at,
        x,
    ) {
        return grow(p, inputs, weights, changed, at, own);
    }
    match x {
        Swap::Wire(wire) => grow(p, inputs, weights, changed, at, wire),
        Swap::Gate(gate) => grow(p, inputs, weights, changed, gate, own),
    }
}

/// The look of a pass at one gate, which reads the wires as they are now.
pub fn look_one(
    p: &Preset,
    inputs: &[Shape],
    weights: &[u64],
    pass: &mut Box<dyn Pass>,
    changed: &mut Changed,
    gate: Gate,
) -> Result<(), Memory>
    requires stands { IsChanged p.now.id weights.now inputs.now changed.old }
    requires few { length inputs.now + length changed.old.gates < 2 ^ 26 }
    requires ready { is_shown (over (slice_index changed.old.names) gate) ≡ true → IsWindow (window p.now (length inputs.now) changed.old.gates (over (slice_index changed.old.names) gate)) }
    requires constant { IsTrue (is_below p.now.t (over (slice_index changed.old.names) gate)) }
    requires light { All IsLight weights.now }
    requires quiet { All IsQuiet changed.old.bounds }
    ensures looked { OnOk result (progress changed.new (handed pass.new).state
        ≡ look_behind p.now weights.now (input_parts inputs.now) (fresh_bounds p.now.id inputs.now) (handed pass.old).rule (progress changed.old (handed pass.old).state) gate) }
    ensures stands { OnOk result (IsChanged p.now.id weights.now inputs.now changed.new) }
    ensures same { (handed pass.new).rule ≡ (handed pass.old).rule }
{
    let at = over(changed.names.as_slice(), gate);
    let count = inputs.len() as u32;
    let own = count + changed.gates.len() as u32;
    let answer = ask(p, count, pass, changed.gates.as_slice(), at);
    put(p, inputs, weights, changed, own, at, answer)
}

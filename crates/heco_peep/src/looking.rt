ghost use Rattle.std.specs.Prelude.{◌≡◌, [], true, slice_get, IfSome, IsTrue};
ghost use Rattle.heco_rewrites.specs.Wires.{operands, maker};
ghost use Rattle.heco_peep.specs.Rules.{IsWindow, is_shown, is_below_in};
ghost use Rattle.heco_peep.specs.Looks.{told, told_maker, window, answered, Progress};

use crate::pass::Pass;
use crate::window::{Swap, Window};
use heco_circuit::Gate;
use heco_nums::Preset;

/// Whether passes are shown gates of this kind.
pub fn is_shown(gate: Gate) -> bool
    ensures { result ≡ is_shown gate }
{
    match gate {
        Gate::Neg { .. } | Gate::Add { .. } | Gate::Sub { .. } => true,
        Gate::Scale { .. } | Gate::Shift { .. } => true,
        Gate::Mul { .. } | Gate::Relin { .. } | Gate::Turn { .. } | Gate::Weigh { .. } => false,
    }
}

/// The gate that makes a wire behind so many inputs.
fn maker(inputs: u32, gates: &[Gate], wire: u32) -> Option<Gate>
    ensures { result ≡ maker inputs gates.now wire }
{
    if wire < inputs {
        return None;
    }
    match gates.get((wire - inputs) as usize) {
        Some(gate) => Some(*gate),
        None => None,
    }
}

/// What a pass is told of it.
fn told_maker(inputs: u32, gates: &[Gate], wire: u32) -> Option<Gate>
    ensures { result ≡ told (maker inputs gates.now wire) }
{
    match maker(inputs, gates, wire) {
        Some(Gate::Weigh { .. }) => None,
        made => made,
    }
}

fn first_operand(gate: Gate) -> Option<u32>
    ensures { result ≡ slice_get (operands gate) 0 }
{
    match gate {
        Gate::Add { a, .. } | Gate::Sub { a, .. } | Gate::Mul { a, .. } => Some(a),
        Gate::Neg { a } | Gate::Relin { a } => Some(a),
        Gate::Scale { a, .. } | Gate::Shift { a, .. } => Some(a),
        Gate::Turn { a, .. } | Gate::Weigh { a, .. } => Some(a),
    }
}

fn second_operand(gate: Gate) -> Option<u32>
    ensures { result ≡ slice_get (operands gate) 1 }
{
    match gate {
        Gate::Add { b, .. } | Gate::Sub { b, .. } | Gate::Mul { b, .. } => Some(b),
        _ => None,
    }
}

fn told_of(inputs: u32, gates: &[Gate], operand: Option<u32>) -> Option<Gate>
    ensures { result ≡ told_maker inputs gates.now operand }
{
    match operand {
        Some(wire) => told_maker(inputs, gates, wire),
        None => None,
    }
}

/// The window of a gate behind so many inputs and these gates.
pub fn window_of(preset: &Preset, inputs: u32, gates: &[Gate], at: Gate) -> Window
    ensures { result ≡ window preset.now inputs gates.now at }
{
    Window {
        preset: *preset,
        at,
        first: told_of(inputs, gates, first_operand(at)),
        second: told_of(inputs, gates, second_operand(at)),
    }
}

/// One look of a boxed pass.
pub fn look_at(pass: &mut Box<dyn Pass>, w: &Window) -> Option<Swap>
    requires { IsWindow w.now }
    ensures answer { result ≡ ((handed pass.old).rule.answer (handed pass.old).state w.now).0 }
    ensures moves { (handed pass.new).state ≡ ((handed pass.old).rule.answer (handed pass.old).state w.now).1 }
    ensures same { (handed pass.new).rule ≡ (handed pass.old).rule }
{
    pass.look(w)
}

/// The answer of a pass to a gate behind so many inputs and these gates: gates of other kinds are never shown.
pub fn ask(
    preset: &Preset,
    inputs: u32,
    pass: &mut Box<dyn Pass>,
    gates: &[Gate],
    at: Gate,
) -> Option<Swap>
    requires { is_shown at ≡ true → IsWindow (window preset.now inputs gates.now at) }
    ensures answer { (result, (handed pass.new).state) ≡ answered preset.now inputs (handed pass.old).rule at (record { gates = gates.now; names = []; state = (handed pass.old).state }) }
    ensures same { (handed pass.new).rule ≡ (handed pass.old).rule }
    ensures below { IfSome result (λ x. IsTrue (is_below_in preset.now.t x)) }
{
    if !is_shown(at) {
        return None;
    }
    let w = window_of(preset, inputs, gates, at);
    look_at(pass, &w)
}

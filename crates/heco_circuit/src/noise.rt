ghost use Rattle.std.specs.Prelude.{◌≡◌, All, IsTrue, slice_index};
ghost use Rattle.heco_noise.specs.Rows.{IsQuiet};
ghost use Rattle.heco_circuit.specs.Bounds.{bound_of, is_below, IsLight};

use crate::gate::Gate;
use heco_noise::{added, multiplied, scaled_by, shifted, turned, weighed};
use heco_nums::Preset;

/// The bound of a wire, which is 0 behind all wires.
pub fn bound_at(bounds: &[u128], wire: u32) -> u128
    requires { All IsQuiet bounds.now }
    ensures value { result ≡ slice_index bounds.now wire }
    ensures quiet { IsQuiet result }
{
    match bounds.get(wire as usize) {
        Some(e) => *e,
        None => 0,
    }
}

fn weight_at(weights: &[u64], vector: u32) -> u64
    requires { All IsLight weights.now }
    ensures value { result ≡ slice_index weights.now vector }
    ensures light { IsLight result }
{
    match weights.get(vector as usize) {
        Some(s) => *s,
        None => 0,
    }
}

/// The written bound of a gate behind wires of these bounds, where the vectors have these weights.
pub fn bound_of(p: &Preset, weights: &[u64], bounds: &[u128], gate: Gate) -> u128
    requires constant { IsTrue (is_below p.now.t gate) }
    requires light { All IsLight weights.now }
    requires quiet { All IsQuiet bounds.now }
    ensures { result ≡ bound_of p.now.id weights.now bounds.now gate }
{
    match gate {
        Gate::Neg { a } => bound_at(bounds, a),
        Gate::Add { a, b } | Gate::Sub { a, b } => added(bound_at(bounds, a), bound_at(bounds, b)),
        Gate::Mul { a, b } => multiplied(p, bound_at(bounds, a), bound_at(bounds, b)),
        Gate::Relin { a } | Gate::Turn { r: _, a } => turned(p, bound_at(bounds, a)),
        Gate::Scale { c, a } => scaled_by(p, c, bound_at(bounds, a)),
        Gate::Shift { c: _, a } => shifted(p, bound_at(bounds, a)),
        Gate::Weigh { v, a } => weighed(weight_at(weights, v), bound_at(bounds, a)),
    }
}

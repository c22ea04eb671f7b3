ghost use Rattle.std.specs.Prelude.{◌≡◌, All, IsTrue};
ghost use Rattle.heco_noise.specs.Rows.{IsQuiet};
ghost use Rattle.heco_circuit.specs.Bounds.{is_below, IsLight};
ghost use Rattle.heco_peep.specs.Rules.{is_below_in};
ghost use Rattle.heco_peep.specs.Looks.{fits};

use crate::window::Swap;
use heco_circuit::{Gate, bound_at, bound_of, part_count, parts_of};
use heco_nums::Preset;

/// Whether an answer has as many parts as the gate, and a bound that is no greater.
pub fn fits(
    p: &Preset,
    weights: &[u64],
    parts: &[u8],
    bounds: &[u128],
    at: Gate,
    answer: Swap,
) -> bool
    requires constant { IsTrue (is_below p.now.t at) }
    requires answer { IsTrue (is_below_in p.now.t answer) }
    requires light { All IsLight weights.now }
    requires quiet { All IsQuiet bounds.now }
    ensures { result ≡ fits p.now.id weights.now parts.now bounds.now at answer }
{
    let count = parts_of(parts, at);
    let bound = bound_of(p, weights, bounds, at);
    match answer {
        Swap::Wire(x) => part_count(parts, x) == count && bound_at(bounds, x) <= bound,
        Swap::Gate(gate) => {
            parts_of(parts, gate) == count && bound_of(p, weights, bounds, gate) <= bound
        }
    }
}

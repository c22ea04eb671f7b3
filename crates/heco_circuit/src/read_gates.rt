ghost use Rattle.std.specs.Prelude.{◌≡◌, ◌≤◌, IfOk};
ghost use Rattle.heco_fields.specs.Formats.{many};
ghost use Rattle.heco_fields.specs.Readings.{Gives, reading};
ghost use Rattle.heco_nums.specs.Runs.{along};
ghost use Rattle.heco_circuit.specs.Validity.{with_gate};
ghost use Rattle.heco_circuit.specs.GateFormat.{gate};

use crate::gate::Gate;
use crate::parts::parts_of;
use crate::read_gate::gate_at;
use heco_fields::Fault;
use heco_nums::List;
use std::alloc::Global;

/// So many gates of a file of this version with so many vectors, behind wires of these parts, and the parts of all wires.
pub fn gates_at<'a>(
    alloc: Global,
    version: u8,
    t: u32,
    slots: u16,
    vectors: u32,
    inputs: List<u8>,
    count: u32,
    bytes: &'a [u8],
) -> Result<((List<Gate>, List<u8>), &'a [u8]), Fault>
    requires modulus { 1 ≤ t }
    requires row { 1 ≤ slots }
    ensures gates { Gives (λ x. (x.0.0, x.1.now)) result (reading (many (gate version t slots vectors) with_gate count inputs) bytes.now) }
    ensures parts { IfOk result (λ x. x.0.1 ≡ along with_gate inputs x.0.0) }
{
    let mut gates = List::new(alloc);
    let mut parts = inputs;
    let mut rest = bytes;
    for _ in 0..count {
        let (gate, after) = gate_at(version, t, slots, vectors, parts.as_slice(), rest)?;
        parts.push(parts_of(parts.as_slice(), gate))?;
        gates.push(gate)?;
        rest = after;
    }
    Ok(((gates, parts), rest))
}

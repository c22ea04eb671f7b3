ghost use Rattle.std.specs.Prelude.{◌≡◌, ◌<◌, not, false, length, map, slice_index_or};
ghost use Rattle.heco_rewrites.specs.Wires.{maker};
ghost use Rattle.heco_plainvec.specs.Gathering.{is_read, wires};
ghost use Rattle.heco_plainvec.specs.inside.Finding.{scaled_where, scaled_at};

use crate::multiple::Scaled;
use heco_circuit::{Circuit, Gate};

/// What the gate of a wire multiplies by a constant, where no gate reads its wire.
pub fn scaled(reads: &[bool], wire: u32, gate: Gate) -> Option<Scaled>
    requires { wire < length reads.now }
    ensures { result ≡ scaled_where (not (slice_index_or reads.now wire false)) gate }
{
    match gate {
        Gate::Scale { c, a } => {
            if reads[wire as usize] {
                None
            } else {
                Some(Scaled { of: a, by: c })
            }
        }
        _ => None,
    }
}

/// The gate that makes a wire.
fn maker(c: &Circuit, wire: u32) -> Option<Gate>
    ensures { result ≡ maker (length c.now.inputs) c.now.gates wire }
{
    let inputs = c.inputs().len();
    if (wire as usize) < inputs {
        return None;
    }
    match c.gates().as_slice().get(wire as usize - inputs) {
        Some(gate) => Some(*gate),
        None => None,
    }
}

/// What the gate that makes a wire multiplies by a constant, where no gate reads that wire.
pub fn scaled_at(c: &Circuit, reads: &[bool], wire: u32) -> Option<Scaled>
    requires { reads.now ≡ map (is_read c.now) (wires c.now) }
    ensures { result ≡ scaled_at c.now wire }
{
    match maker(c, wire) {
        Some(gate) => scaled(reads, wire, gate),
        None => None,
    }
}

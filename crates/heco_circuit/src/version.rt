ghost use Rattle.std.specs.Prelude.{◌≡◌};
ghost use Rattle.std.specs.List.{list_any};
ghost use Rattle.heco_circuit.specs.Versions.{is_sub, version_of};

use crate::gate::Gate;
use heco_nums::List;

/// The newest version of a circuit file.
pub const NEWEST: u8 = 3;

fn is_sub(gate: &Gate) -> bool
    ensures { result ≡ is_sub gate.now }
{
    matches!(gate, Gate::Sub { .. })
}

fn has_sub(gates: &[Gate]) -> bool
    ensures { result ≡ list_any is_sub gates.now }
{
    let mut rest = gates;
    while let [gate, after @ ..] = rest {
        if is_sub(gate) {
            return true;
        }
        rest = after;
    }
    false
}

/// The version of the file of a circuit with these vectors and gates.
pub fn version_of(vectors: &[List<u32>], gates: &[Gate]) -> u8
    ensures { result ≡ version_of vectors.now gates.now }
{
    match vectors {
        [] => if has_sub(gates) { 2 } else { 1 },
        _ => 3,
    }
}

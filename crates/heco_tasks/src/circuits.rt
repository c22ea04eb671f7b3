ghost use Rattle.std.specs.Prelude.{◌≡◌, ◌≤◌, length};
ghost use Rattle.heco_texts.specs.Answers.{HaveOwnNames};

use heco_circuit::Circuit;
use heco_nums::{List, Shape};

/// How many inputs the circuit has.
pub fn input_count(circuit: &Circuit) -> u32
    ensures { result ≡ length circuit.now.inputs }
{
    let _valid = circuit.preset();
    circuit.inputs().len() as u32
}

/// The circuit's inputs.
pub fn inputs_of(circuit: &Circuit) -> &List<Shape>
    ensures inputs { result.now ≡ circuit.now.inputs }
    ensures count { length result.now ≤ 256 }
    ensures names { HaveOwnNames result.now }
{
    let _valid = circuit.preset();
    circuit.inputs()
}

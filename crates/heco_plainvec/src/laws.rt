ghost use Rattle.std.specs.Prelude.{◌≡◌, ℕ, false, List, length};
ghost use Rattle.heco_circuit.specs.Circuits.{IsCircuit};
ghost use Rattle.heco_circuit.specs.Plans.{Plan};
ghost use Rattle.heco_meaning.specs.Meanings.{meaning_of};
ghost use Rattle.heco_plainvec.specs.Gathered.{gathered};
ghost use Rattle.heco_plainvec.specs.Gathering.{finds, HasRoom};
ghost use Rattle.heco_plainvec.specs.Kept.{KeepsTheRest};

/// A gathered circuit is valid.
pub fn gathered_circuits_are_valid()
    ensures { (c : Plan) → IsCircuit c → HasRoom c → IsCircuit (gathered c) }
{}

/// It means what the circuit means, for every row of inputs.
pub fn gathered_circuits_mean_the_same()
    ensures { (c : Plan) (rows : List (List ℕ)) → IsCircuit c → length rows ≡ length c.inputs → meaning_of (gathered c) rows ≡ meaning_of c rows }
{}

/// It has the circuit's preset, ports and needs, no more gates, and wires that stay have their bounds.
pub fn gathered_circuits_keep_the_rest()
    ensures { (c : Plan) → IsCircuit c → KeepsTheRest c (gathered c) }
{}

/// In it the rule finds no wire whose multiples it would replace.
pub fn nothing_more_is_found()
    ensures { (c : Plan) (a : ℕ) → IsCircuit c → finds (gathered c) a ≡ false }
{}

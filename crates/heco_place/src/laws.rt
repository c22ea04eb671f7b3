ghost use Rattle.std.specs.Prelude.{◌≡◌, [], List as Seq};
ghost use Rattle.heco_written.specs.VectorTerm.{VectorTerm};
ghost use Rattle.heco_circuit.specs.Versions.{version_of};
ghost use Rattle.heco_circuit.specs.declared.gate.Gate.{Gate};
ghost use Rattle.heco_place.specs.Kinds.{AreFewer};

/// No term has a difference, so the file of a placed circuit has version 1.
pub fn placed_circuits_have_version_1()
    ensures { (ts vs : Seq VectorTerm) (gates : Seq Gate) → AreFewer ts vs gates → version_of [] gates ≡ 1 }
{}

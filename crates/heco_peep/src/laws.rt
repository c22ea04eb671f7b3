ghost use Rattle.heco_peep.specs.NoWorse.{PassedCircuitsAreNoWorse};

/// Whatever passes were handed in, the last circuit is valid, means the same and costs no more.
pub fn passed_circuits_are_no_worse()
    ensures { PassedCircuitsAreNoWorse }
{}

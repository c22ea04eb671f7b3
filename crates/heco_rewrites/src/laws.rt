ghost use Rattle.heco_rewrites.specs.Renaming.{GatesMayBeRenamed};
ghost use Rattle.heco_rewrites.specs.Dropping.{DeadGatesMayGo};
ghost use Rattle.heco_rewrites.specs.Full.{WiresAreFull};

/// A gate over wires that stand for its operands has as many parts, the same slots and no greater bound, and may stand.
pub fn gates_may_be_renamed()
    ensures { GatesMayBeRenamed }
{}

/// Without the gates that no output needs, each needed wire is stood for, and the kept gates may stand.
pub fn dead_gates_may_go()
    ensures { DeadGatesMayGo }
{}

/// Behind wires of N numbers below t each, gates that may stand give such wires.
pub fn wires_are_full()
    ensures { WiresAreFull }
{}

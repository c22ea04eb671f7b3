use heco_circuit::Gate;
use heco_nums::Preset;

/// A gate, and the gates that make its operands: none where there is no such operand, where it is an input,
/// or where it is weighed by a plain vector.
#[derive(Clone, Copy, Debug, PartialEq, Eq)]
pub struct Window {
    pub preset: Preset,
    pub at: Gate,
    pub first: Option<Gate>,
    pub second: Option<Gate>,
}

/// What may stand in a gate's place: a wire, or another gate.
#[derive(Clone, Copy, Debug, PartialEq, Eq)]
pub enum Swap {
    Wire(u32),
    Gate(Gate),
}

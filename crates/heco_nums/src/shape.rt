use crate::{Bytes, List};

/// The name and the number of elements of one input or output.
#[derive(Debug, Drop)]
pub struct Shape {
    pub name: Bytes,
    pub len: u32,
}

/// One row of values for each input or output, in order.
#[derive(Debug, Drop)]
pub struct Values {
    pub rows: List<List<u32>>,
}

/// The values of the inputs.
pub type Inputs = Values;

/// The values of the outputs.
pub type Outputs = Values;

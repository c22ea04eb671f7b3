ghost use Rattle.std.specs.Prelude.{◌≡◌, ◌++◌, OnOk};
ghost use Rattle.std.specs.List.{flat_map};
ghost use Rattle.heco_listing.specs.Listings.{input_line, cell_words, output_line};

use crate::pieces::put_port;
use heco_circuit::{Cell, Output};
use heco_nums::{Bytes, Memory, Shape, put_number};

fn put_input(out: &mut Bytes, input: &Shape) -> Result<(), Memory>
    ensures { OnOk result (out.new ≡ out.old ++ input_line input.now) }
{
    out.extend_from_slice(b"in ")?;
    put_port(out, input.name.as_slice(), input.len as usize)?;
    out.extend_from_slice(b"\n")
}

pub fn put_inputs(out: &mut Bytes, inputs: &[Shape]) -> Result<(), Memory>
    ensures { OnOk result (out.new ≡ out.old ++ flat_map input_line inputs.now) }
{
    for input in inputs {
        put_input(out, input)?;
    }
    Ok(())
}

fn put_cell(out: &mut Bytes, cell: Cell) -> Result<(), Memory>
    ensures { OnOk result (out.new ≡ out.old ++ cell_words cell) }
{
    out.extend_from_slice(b" ")?;
    match cell {
        Cell::Number(n) => put_number(out, u128::from(n)),
        Cell::Slot { wire, slot } => {
            put_number(out, u128::from(wire))?;
            out.extend_from_slice(b"@")?;
            put_number(out, u128::from(slot))
        }
    }
}

fn put_cells(out: &mut Bytes, cells: &[Cell]) -> Result<(), Memory>
    ensures { OnOk result (out.new ≡ out.old ++ flat_map cell_words cells.now) }
{
    for cell in cells {
        put_cell(out, *cell)?;
    }
    Ok(())
}

fn put_output(out: &mut Bytes, output: &Output) -> Result<(), Memory>
    ensures { OnOk result (out.new ≡ out.old ++ output_line output.now) }
{
    out.extend_from_slice(b"out ")?;
    put_port(out, output.name.as_slice(), output.cells.len())?;
    out.extend_from_slice(b" =")?;
    put_cells(out, output.cells.as_slice())?;
    out.extend_from_slice(b"\n")
}

pub fn put_outputs(out: &mut Bytes, outputs: &[Output]) -> Result<(), Memory>
    ensures { OnOk result (out.new ≡ out.old ++ flat_map output_line outputs.now) }
{
    for output in outputs {
        put_output(out, output)?;
    }
    Ok(())
}

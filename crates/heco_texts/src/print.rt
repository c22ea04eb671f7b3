ghost use Rattle.std.specs.Prelude.{◌≡◌, ◌++◌, IfOk, OnOk, length};
ghost use Rattle.std.specs.List.{flat_map};
ghost use Rattle.heco_texts.specs.Outputs.{value_words, output_line, output_text};

use heco_nums::{Bytes, List, Memory, Outputs, Shape, put_number};
use std::alloc::Global;

fn put_value(out: &mut Bytes, value: u32) -> Result<(), Memory>
    ensures { OnOk result (out.new ≡ out.old ++ value_words value) }
{
    out.extend_from_slice(b" ")?;
    put_number(out, u128::from(value))
}

fn put_values(out: &mut Bytes, row: &[u32]) -> Result<(), Memory>
    ensures { OnOk result (out.new ≡ out.old ++ flat_map value_words row.now) }
{
    for value in row {
        put_value(out, *value)?;
    }
    Ok(())
}

fn put_line(out: &mut Bytes, name: &[u8], row: &[u32]) -> Result<(), Memory>
    ensures { OnOk result (out.new ≡ out.old ++ output_line name.now row.now) }
{
    out.extend_from_slice(name)?;
    out.extend_from_slice(b" =")?;
    put_values(out, row)?;
    out.extend_from_slice(b"\n")
}

fn text_of(alloc: Global, shapes: &[Shape], rows: &[List<u32>]) -> Result<Bytes, Memory>
    requires { length rows.now ≡ length shapes.now }
    ensures { IfOk result (λ text. text ≡ output_text shapes.now rows.now) }
{
    let mut out = Bytes::new(alloc);
    for (i, shape) in shapes.iter().enumerate() {
        put_line(&mut out, shape.name.as_slice(), rows[i].as_slice())?;
    }
    Ok(out)
}

/// The text of outputs: for each shape in order its name, ` =`, for each of its values a space and the value in
/// decimal, and LF.
pub fn print_outputs(alloc: Global, s: &List<Shape>, o: &Outputs) -> Result<Bytes, Memory>
    requires { length o.now.rows ≡ length s.now }
    ensures { IfOk result (λ text. text ≡ output_text s.now o.now.rows) }
{
    text_of(alloc, s.as_slice(), o.rows.as_slice())
}

use crate::answer::typed;
use heco_nums::Shape;
use heco_types::Typed;
use std::alloc::Global;
use std::test::Fail;

const SOURCE: &str = "params p8; fn f(in a[8], out y, in x, out z[4096], in w[1]) { }";

// Whether the shapes have these names and lengths.
fn are(shapes: &[Shape], wanted: &str) -> Result<bool, Fail> {
    let mut rows = wanted.split(';');
    for shape in shapes {
        let row = rows.next().unwrap_or("none 0");
        let (name, len) = row.split_once(' ').ok_or("no length")?;
        if shape.name.as_slice() != name.as_bytes() || shape.len != len.parse::<u32>()? {
            return Ok(false);
        }
    }
    Ok(rows.next().is_none())
}

fn has_shapes(t: &Typed) -> Result<bool, Fail> {
    let inputs = are(t.inputs().as_slice(), "a 8;x 1;w 1")?;
    Ok(inputs && are(t.outputs().as_slice(), "y 1;z 4096")?)
}

// The number of the preset, how many parameters there are, and whether inputs and outputs are as they should be.
fn told(t: &Typed) -> Result<(u8, usize, bool), Fail> {
    Ok((t.preset().id, t.source().ports.len(), has_shapes(t)?))
}

fn told_of(alloc: Global, text: &str) -> Result<(u8, usize, bool), Fail> {
    match typed(alloc, text)? {
        Ok(t) => told(&t),
        Err(_) => Err("refused".into()),
    }
}

#[test]
fn inputs_and_outputs_with_their_lengths(rt: HostRuntime) -> Result<(), Fail> {
    assert_eq!(rt; told_of(rt.alloc(), SOURCE)?, (1, 5, true));
    Ok(())
}

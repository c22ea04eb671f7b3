ghost use Rattle.std.specs.Prelude.{◌≡◌, [], ◌∷◌, IfOk, codes};

use heco_nums::{Bytes, List, Memory, Preset, Shape};
use heco_texts::{InputErr, print_outputs, read_inputs};
use std::alloc::Global;
use std::test::Fail;

fn shape(alloc: Global, name: &[u8], len: u32) -> Result<Shape, Memory>
    ensures { IfOk result (λ s. s ≡ record { name = name.now; len = len }) }
{
    let name = Bytes::from_slice(alloc, name)?;
    Ok(Shape { name, len })
}

// One x and two y.
fn shapes(alloc: Global) -> Result<List<Shape>, Memory>
    ensures { IfOk result (λ s. s ≡ record { name = codes "x"; len = 1 } ∷ record { name = codes "y"; len = 2 } ∷ []) }
{
    let mut shapes = List::new(alloc);
    shapes.push(shape(alloc, b"x".as_slice(), 1)?)?;
    shapes.push(shape(alloc, b"y".as_slice(), 2)?)?;
    Ok(shapes)
}

fn refusal(alloc: Global, e: InputErr) -> Result<Bytes, Fail> {
    let text = match e {
        InputErr::InputLong => format!(in alloc; "InputLong")?,
        InputErr::At { rule, line } => format!(in alloc; "{rule:?} {line}")?,
        InputErr::InputMissing { which } => format!(in alloc; "InputMissing {which}")?,
        InputErr::Memory => format!(in alloc; "Memory")?,
    };
    Ok(Bytes::from_slice(alloc, text.as_bytes())?)
}

/// What a text of one x and two y below t answers: its values as they are printed, or its refusal.
#[tactic(auto, using(crate::proofs::TwoShapes::own_names))]
pub fn answer(alloc: Global, p: &Preset, text: &[u8]) -> Result<Bytes, Fail> {
    let shapes = shapes(alloc)?;
    match read_inputs(alloc, p, &shapes, text) {
        Ok(inputs) => Ok(print_outputs(alloc, &shapes, &inputs)?),
        Err(e) => refusal(alloc, e),
    }
}

// The byte that stands for itself in a row, or LF, CR or tab.
fn meant(c: u8) -> u8 {
    match c {
        b'$' => b'\n',
        b'^' => b'\r',
        b'~' => b'\t',
        _ => c,
    }
}

/// Whether a text is the one that a part of a row stands for.
pub fn is_text(text: &[u8], part: &str) -> bool {
    let part = part.as_bytes();
    text.len() == part.len() && text.iter().zip(part).all(|(c, mark)| *c == meant(*mark))
}

/// Puts the text that a part of a row stands for behind another.
pub fn put_text(text: &mut Bytes, part: &str) -> Result<(), Memory> {
    for c in part.as_bytes() {
        text.push(meant(*c))?;
    }
    Ok(())
}

/// The text that a part of a row stands for: `$` is LF there, `^` is CR, and `~` is a tab.
pub fn text_of(alloc: Global, part: &str) -> Result<Bytes, Memory> {
    let mut text = Bytes::new(alloc);
    put_text(&mut text, part)?;
    Ok(text)
}

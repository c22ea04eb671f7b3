ghost use Rattle.std.specs.Prelude.{◌≡◌, ◌≢◌, ◌≤◌, ◌<◌, Ok, Err, IfOk, IfErr, length};
ghost use Rattle.heco_nums.specs.declared.shape.Values.{Values};
ghost use Rattle.heco_texts.specs.Answers.{IsRead, IsRefused, IsBroken, IsMissing, Gives, HaveOwnNames, HaveFit};
ghost use Rattle.heco_texts.specs.Lines.{lines};
ghost use Rattle.heco_texts.specs.Rules.{given_by, rows_of, first_missing, NoneBroken};
ghost use Rattle.heco_texts.specs.declared.error.InputErr.TheVariants as e;
ghost use Rattle.heco_texts.specs.declared.error.InputErr.{InputErr as Refusal};

use crate::bytes::cut_line;
use crate::error::InputErr;
use crate::given::{Given, row_named};
use crate::judge::take_line;
use heco_nums::{Inputs, List, Preset, Shape, Values};
use std::alloc::Global;

// The most bytes that a text of inputs may have.
const MOST_BYTES: usize = 4_194_304;

// What the lines give, or the first that breaks a rule.
fn given_by(alloc: Global, t: u32, shapes: &[Shape], text: &[u8]) -> Result<List<Given>, InputErr>
    requires { length text.now ≤ 4194304 }
    ensures read { IfOk result (λ given. (given ≡ given_by (lines text.now)) × NoneBroken t shapes.now (lines text.now)) }
    ensures broken { IfErr result (IsBroken t shapes.now (lines text.now)) }
{
    let mut given = List::new(alloc);
    let mut rest = text;
    let mut number = 1u32;
    while !rest.is_empty() {
        let (line, after) = cut_line(rest);
        if let Some(rule) = take_line(alloc, t, shapes, &mut given, line)? {
            return Err(InputErr::At { rule, line: number });
        }
        number += 1;
        rest = after;
    }
    Ok(given)
}

// A row for each shape, or the first that was not given.
fn rows_of(alloc: Global, shapes: &[Shape], given: &[Given]) -> Result<Inputs, InputErr>
    requires { length shapes.now ≤ 256 }
    ensures read { IfOk result (λ v. (v.rows ≡ rows_of given.now shapes.now) × (first_missing given.now shapes.now ≡ None)) }
    ensures missing { IfErr result (IsMissing given.now shapes.now) }
{
    let mut rows = List::new(alloc);
    for (i, shape) in shapes.iter().enumerate() {
        let Some(row) = row_named(given, shape.name.as_slice()) else {
            return Err(InputErr::InputMissing { which: i as u32 });
        };
        rows.push(List::from_slice(alloc, row)?)?;
    }
    Ok(Values { rows })
}

fn read_text(alloc: Global, t: u32, shapes: &[Shape], text: &[u8]) -> Result<Inputs, InputErr>
    requires { length shapes.now ≤ 256 }
    ensures read { IfOk result (IsRead t shapes.now text.now) }
    ensures refused { IfErr result (IsRefused t shapes.now text.now) }
{
    if text.len() > MOST_BYTES {
        return Err(InputErr::InputLong);
    }
    let given = given_by(alloc, t, shapes, text)?;
    rows_of(alloc, shapes, given.as_slice())
}

/// Reads the values of the inputs from their text: one row for each shape, in the shapes' order.
///
/// A line ends with LF, CR LF or the end of the text. A line of spaces and tabs alone is skipped, and so is one whose
/// first other byte is `#`. Each other line gives an input its values: `NAME = 1 2 3`. The numbers are decimal, have
/// any number of digits, and are below the plaintext modulus.
///
/// `InputLong` comes exactly where the text has more than 4,194,304 bytes, then `At` with the first broken rule of the
/// first line that breaks one, then `InputMissing` with the first input that no line gave.
pub fn read_inputs(
    alloc: Global,
    p: &Preset,
    s: &List<Shape>,
    text: &[u8],
) -> Result<Inputs, InputErr>
    requires count { length s.now ≤ 256 }
    requires names { HaveOwnNames s.now }
    ensures read { IfOk result (IsRead p.now.t s.now text.now) }
    ensures fit { IfOk result (λ v. HaveFit p.now.t s.now v.rows) }
    ensures refused { IfErr result (IsRefused p.now.t s.now text.now) }
    ensures reads { (v : Values) → IsRead p.now.t s.now text.now v → Gives result (Ok v) }
    ensures refuses { (err : Refusal) → err ≢ e.Memory → IsRefused p.now.t s.now text.now err → Gives result (Err err) }
{
    read_text(alloc, p.t, s.as_slice(), text)
}

//! The text of what is measured.

ghost use Rattle.std.specs.Prelude.{◌≡◌, ◌++◌, IfOk, OnOk, codes};
ghost use Rattle.heco_measure.specs.Lines.{measured_line, measured_text};

use crate::measuring::Measured;
use heco_nums::{Bytes, Memory, put_number};
use std::alloc::Global;

fn put_line(out: &mut Bytes, measured: &Measured) -> Result<(), Memory>
    ensures { OnOk result (out.new ≡ out.old ++ measured_line measured.now) }
{
    put_number(out, u128::from(measured.wire))?;
    out.extend_from_slice(b" ")?;
    put_number(out, measured.noise)?;
    out.extend_from_slice(b" ")?;
    put_number(out, measured.bound)?;
    out.extend_from_slice(b"\n")
}

/// A line for each wire: the wire, its noise and its bound in decimal, with one space between.
#[tactic(auto, unfolding(crate::specs::Lines::measured_text))]
pub fn measured_text(alloc: Global, list: &[Measured]) -> Result<Bytes, Memory>
    ensures { IfOk result (λ text. text ≡ measured_text list.now) }
{
    let mut out = Bytes::new(alloc);
    for measured in list {
        put_line(&mut out, measured)?;
    }
    Ok(out)
}

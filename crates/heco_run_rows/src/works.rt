//! A work that takes events, and what it says.

ghost use Rattle.std.specs.Prelude.{◌≡◌};

use crate::given::{Given, inputs};
use heco_bfv::Ct;
use heco_run::{RunErr, Work, WorkErr};
use heco_sched_rows::event_of;
use std::alloc::Global;
use std::test::Fail;

/// A work of four workers on so many inputs.
pub fn opened<'g>(alloc: Global, g: &'g Given, count: u32) -> Result<Work<'g>, RunErr> {
    let ins = inputs(alloc, g, count)?;
    Work::open(alloc, &g.circuit, &g.eval, ins, 4)
}

/// The ciphertext that is kept of the wire.
pub fn kept<'w>(work: &'w Work<'_>, wire: u32) -> Option<&'w Ct> {
    let circuit = work.circuit();
    let _valid = circuit.preset();
    let wires = circuit.inputs().len() + circuit.gates().len();
    if wire as usize >= wires {
        return None;
    }
    work.wire(wire)
}

fn parts(alloc: Global, work: &Work<'_>, wire: u32) -> Result<String, Fail> {
    match kept(work, wire) {
        None => Ok(String::from_str(alloc, "none")?),
        Some(c) => Ok(format!(in alloc; "{}", c.parts())?),
    }
}

fn taken(alloc: Global, answer: Result<(), WorkErr>) -> Result<String, Fail> {
    match answer {
        Ok(()) => Ok(String::from_str(alloc, "done")?),
        Err(why) => Ok(format!(in alloc; "{why:?}")?),
    }
}

/// What the work says to a line: `legal` asks for the count of legal events, `parts WIRE` for the parts of the
/// ciphertext that is kept, and anything else is an event for a step.
pub fn answer(alloc: Global, work: &mut Work<'_>, line: &str) -> Result<String, Fail> {
    if line == "legal" {
        return Ok(format!(in alloc; "{}", work.board().legal())?);
    }
    match line.strip_prefix("parts ") {
        Some(wire) => parts(alloc, work, wire.parse::<u32>()?),
        None => taken(alloc, work.step(event_of(line)?)),
    }
}

ghost use Rattle.std.specs.Prelude.{◌≡◌, IfOk, map};
ghost use Rattle.heco_thrift.specs.Thrift.{bounds_of};
ghost use Rattle.heco_plainvec.specs.Gathered.{name, gathered_gates, gathered_vectors, gathered};
ghost use Rattle.heco_plainvec.specs.Gathering.{is_read, wires, HasRoom};
ghost use Rattle.heco_plainvec.specs.inside.Finding.{product_at};

use crate::asks::asks_of;
use crate::choosing::{Choices, choices_of};
use crate::groups::multiples_of;
use crate::reads::reads_of;
use crate::rewriting::{Rewritten, rewrite};
use heco_circuit::{Circuit, Gate, bounds};
use heco_nums::{List, Memory};
use heco_rewrites::{copied_inputs, outputs_over};
use std::alloc::Global;

/// What changes: the vectors, the gates, and the number of each old wire.
#[derive(Debug, Drop)]
struct Changes {
    vectors: List<List<u32>>,
    gates: List<Gate>,
    names: List<u32>,
}

/// The products for all wires, and the vectors, by which of the wires are read and by the bounds.
fn chosen(alloc: Global, c: &Circuit, reads: &[bool], bounds: &[u128]) -> Result<Choices, Memory>
    requires reads { reads.now ≡ map (is_read c.now) (wires c.now) }
    requires bounds { bounds.now ≡ bounds_of c.now }
    ensures products { IfOk result (λ r. r.products ≡ map (product_at c.now) (wires c.now)) }
    ensures vectors { IfOk result (λ r. r.vectors ≡ gathered_vectors c.now) }
{
    let groups = multiples_of(alloc, c, reads)?;
    let asks = asks_of(alloc, c, reads)?;
    choices_of(alloc, c, groups.as_slice(), asks.as_slice(), bounds)
}

/// The gates by these choices, with the vectors.
fn changes_by(
    alloc: Global,
    c: &Circuit,
    reads: &[bool],
    choices: Choices,
) -> Result<Changes, Memory>
    requires reads { reads.now ≡ map (is_read c.now) (wires c.now) }
    requires products { choices.products ≡ map (product_at c.now) (wires c.now) }
    ensures vectors { IfOk result (λ r. r.vectors ≡ choices.vectors) }
    ensures gates { IfOk result (λ r. r.gates ≡ gathered_gates c.now) }
    ensures names { IfOk result (λ r. r.names ≡ map (name c.now) (wires c.now)) }
{
    let Rewritten { gates, names } = rewrite(alloc, c, reads, choices.products.as_slice())?;
    let Choices { vectors, .. } = choices;
    Ok(Changes {
        vectors,
        gates,
        names,
    })
}

/// All that changes.
fn changes_of(alloc: Global, c: &Circuit) -> Result<Changes, Memory>
    ensures vectors { IfOk result (λ r. r.vectors ≡ gathered_vectors c.now) }
    ensures gates { IfOk result (λ r. r.gates ≡ gathered_gates c.now) }
    ensures names { IfOk result (λ r. r.names ≡ map (name c.now) (wires c.now)) }
{
    let bounds = bounds(alloc, c)?;
    let reads = reads_of(alloc, c, bounds.len())?;
    let choices = chosen(alloc, c, reads.as_slice(), bounds.as_slice())?;
    changes_by(alloc, c, reads.as_slice(), choices)
}

/// The circuit with what changes.
fn with_changes(alloc: Global, c: &Circuit, changes: Changes) -> Result<Circuit, Memory>
    requires room { HasRoom c.now }
    requires vectors { changes.vectors ≡ gathered_vectors c.now }
    requires gates { changes.gates ≡ gathered_gates c.now }
    requires names { changes.names ≡ map (name c.now) (wires c.now) }
    ensures { IfOk result (λ d. d ≡ gathered c.now) }
{
    let inputs = copied_inputs(alloc, c.inputs().as_slice())?;
    let outputs = outputs_over(alloc, changes.names.as_slice(), c.outputs().as_slice())?;
    let Changes { vectors, gates, .. } = changes;
    Ok(Circuit::make_with(c.preset(), inputs, vectors, gates, outputs))
}

/// The circuit with one product by a plain vector in place of the multiples of a wire that only output cells read,
/// for each wire for which one serves, as long as there is room for vectors.
pub fn gather(alloc: Global, c: Circuit) -> Result<Circuit, Memory>
    requires { HasRoom c }
    ensures { IfOk result (λ d. d ≡ gathered c) }
{
    let changes = changes_of(alloc, &c)?;
    with_changes(alloc, &c, changes)
}

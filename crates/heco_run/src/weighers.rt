//! The polynomials that a circuit's plain vectors weigh by, each made once.

ghost use Rattle.std.specs.Prelude.{◌≡◌, IsTrue, IfOk};
ghost use Rattle.std.specs.List.{list_all};
ghost use Rattle.heco_circuit.specs.Plans.{is_vector};
ghost use Rattle.heco_scheme.specs.Gates.{weigher_words};
ghost use Rattle.heco_run.specs.Making.{weighers_of};

use heco_bfv::weigher;
use heco_circuit::Circuit;
use heco_nums::{List, Memory, Preset};
use heco_poly::Poly;
use heco_slots::SlotTable;
use std::alloc::Global;

fn weigher_of(alloc: Global, table: &SlotTable, vector: &[u32]) -> Result<Poly, Memory>
    requires { IsTrue (is_vector table.now.preset.t table.now.preset.slots vector.now) }
    ensures { IfOk result (λ m. m ≡ weigher_words table.now.preset vector.now) }
{
    weigher(alloc, table, vector)
}

fn all_weighers(
    alloc: Global,
    table: &SlotTable,
    vectors: &[List<u32>],
) -> Result<List<Poly>, Memory>
    requires { IsTrue (list_all (is_vector table.now.preset.t table.now.preset.slots) vectors.now) }
    ensures { IfOk result (λ weighers. weighers ≡ weighers_of table.now.preset vectors.now) }
{
    let mut weighers = List::new(alloc);
    let mut rest = vectors;
    while let [vector, after @ ..] = rest {
        weighers.push(weigher_of(alloc, table, vector.as_slice())?)?;
        rest = after;
    }
    Ok(weighers)
}

/// The polynomial that each plain vector of the circuit weighs by; without a vector the powers that make one are not
/// worked out.
pub fn each_weigher(alloc: Global, p: &Preset, c: &Circuit) -> Result<List<Poly>, Memory>
    requires { p.now.id ≡ c.now.preset }
    ensures { IfOk result (λ weighers. weighers ≡ weighers_of p.now c.now.vectors) }
{
    let _valid = c.preset();
    let vectors = c.vectors().as_slice();
    if vectors.is_empty() {
        return Ok(List::new(alloc));
    }
    let table = SlotTable::build(alloc, p)?;
    all_weighers(alloc, &table, vectors)
}

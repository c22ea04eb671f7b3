ghost use Rattle.std.specs.Prelude.{◌≡◌, All, IsTrue, IfOk, length};
ghost use Rattle.std.specs.List.{list_all};
ghost use Rattle.heco_circuit.specs.Bounds.{IsLight, vector_weight_of, weights_of};
ghost use Rattle.heco_circuit.specs.Plans.{is_vector};

use heco_nums::{List, Memory, Preset};
use heco_slots::SlotTable;
use std::alloc::Global;

fn vector_weight(table: &SlotTable, vector: &[u32], room: &mut [u32]) -> u64
    requires vector { IsTrue (is_vector table.now.preset.t table.now.preset.slots vector.now) }
    requires room { length room.old ≡ table.now.preset.n }
    ensures value { result ≡ vector_weight_of table.now.preset.id vector.now }
    ensures light { IsLight result }
{
    table.vector_weight(vector, room)
}

fn each_weight(
    alloc: Global,
    table: &SlotTable,
    vectors: &[List<u32>],
    room: &mut [u32],
) -> Result<List<u64>, Memory>
    requires vectors { IsTrue (list_all (is_vector table.now.preset.t table.now.preset.slots) vectors.now) }
    requires room { length room.old ≡ table.now.preset.n }
    ensures value { IfOk result (λ weights. weights ≡ weights_of table.now.preset.id vectors.now) }
    ensures light { IfOk result (λ weights. All IsLight weights) }
{
    let mut weights = List::new(alloc);
    let mut rest = vectors;
    while let [vector, after @ ..] = rest {
        weights.push(vector_weight(table, vector.as_slice(), room))?;
        rest = after;
    }
    Ok(weights)
}

/// The weight of each plain vector, without a table of powers where there is none.
pub fn weights_of(alloc: Global, p: &Preset, vectors: &[List<u32>]) -> Result<List<u64>, Memory>
    requires { IsTrue (list_all (is_vector p.now.t p.now.slots) vectors.now) }
    ensures value { IfOk result (λ weights. weights ≡ weights_of p.now.id vectors.now) }
    ensures light { IfOk result (λ weights. All IsLight weights) }
{
    if vectors.is_empty() {
        return Ok(List::new(alloc));
    }
    let table = SlotTable::build(alloc, p)?;
    let mut room = vec![in alloc; 0; p.n as usize]?;
    each_weight(alloc, &table, vectors, room.as_mut_slice())
}

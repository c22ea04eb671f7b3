ghost use Rattle.std.specs.Prelude.{◌≡◌, All, IsTrue, length, IfOk};
ghost use Rattle.heco_noise.specs.Rows.{IsQuiet, passes, weighed};
ghost use Rattle.heco_circuit.specs.Bounds.{vector_weight_of};
ghost use Rattle.heco_circuit.specs.Plans.{is_vector};
ghost use Rattle.heco_plainvec.specs.inside.Finding.{IsAsk, product_by};

use crate::filling::vector_of;
use crate::multiple::{Asked, Multiple};
use heco_noise::{passes, weighed};
use heco_nums::{List, Memory};
use heco_slots::SlotTable;
use std::alloc::Global;

/// Whether the product by a vector of a wire of this bound has a bound that passes.
fn product_passes(table: &SlotTable, room: &mut [u32], vector: &[u32], bound: u128) -> bool
    requires vector { IsTrue (is_vector table.now.preset.t table.now.preset.slots vector.now) }
    requires room { length room.old ≡ table.now.preset.n }
    requires quiet { IsQuiet bound }
    ensures { result ≡ passes (weighed (vector_weight_of table.now.preset.id vector.now) bound) }
{
    passes(weighed(table.vector_weight(vector, room), bound))
}

/// The vector by which one product serves for these multiples of a wire of this bound, where one does.
pub fn product_by(
    alloc: Global,
    table: &SlotTable,
    room: &mut [u32],
    multiples: &[Multiple],
    asks: &[Asked],
    bound: u128,
) -> Result<Option<List<u32>>, Memory>
    requires asks { All (IsAsk table.now.preset.id) asks.now }
    requires room { length room.old ≡ table.now.preset.n }
    requires quiet { IsQuiet bound }
    ensures { IfOk result (λ found. found ≡ product_by table.now.preset.id multiples.now asks.now bound) }
{
    if multiples.len() < 2 {
        return Ok(None);
    }
    match vector_of(alloc, &table.preset, asks)? {
        Some(vector) => {
            if product_passes(table, room, vector.as_slice(), bound) {
                Ok(None)
            } else {
                Ok(Some(vector))
            }
        }
        None => Ok(None),
    }
}

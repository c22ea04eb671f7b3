ghost use Rattle.std.specs.Prelude.{◌≡◌, ◌<◌, ◌||◌, ◌==◌, All, IsTrue, Some, None, length, slice_index, slice_set, IfOk, if◌then◌else◌};
ghost use Rattle.heco_plainvec.specs.Gathering.{agree, vector_of};
ghost use Rattle.heco_plainvec.specs.inside.Finding.{IsAsk};

use crate::multiple::Asked;
use heco_nums::{List, Memory, Preset};
use std::alloc::Global;

/// Puts a constant at its slot, unless another is there; 0 is none.
fn put_constant(vector: &mut Vec<u32>, ask: Asked) -> bool
    requires { ask.slot < length vector.old.items }
    ensures agrees { result ≡ (slice_index vector.old.items ask.slot == 0 || slice_index vector.old.items ask.slot == ask.by) }
    ensures put { IsTrue result → vector.new.items ≡ slice_set vector.old.items ask.slot ask.by }
{
    let here = vector[ask.slot as usize];
    if here == 0 || here == ask.by {
        vector[ask.slot as usize] = ask.by;
        true
    } else {
        false
    }
}

/// Each constant at the slots that are asked of it, else 0, where no slot is asked with two.
pub fn vector_of(alloc: Global, p: &Preset, asks: &[Asked]) -> Result<Option<List<u32>>, Memory>
    requires { All (IsAsk p.now.id) asks.now }
    ensures { IfOk result (λ found. found ≡ (if agree asks.now then Some (vector_of p.now.id asks.now) else None)) }
{
    let mut vector = vec![in alloc; 0; p.slots as usize]?;
    for ask in asks {
        if !put_constant(&mut vector, *ask) {
            return Ok(None);
        }
    }
    Ok(Some(List::from_vec(vector)))
}

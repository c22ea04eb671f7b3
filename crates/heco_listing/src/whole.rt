ghost use Rattle.std.specs.Prelude.{◌≡◌, IfOk};
ghost use Rattle.heco_listing.specs.Listings.{listing_of};

use crate::gates::put_gates;
use crate::pieces::put_preset_line;
use crate::ports::{put_inputs, put_outputs};
use crate::vectors::put_vectors;
use heco_circuit::{Circuit, bounds};
use heco_nums::{Bytes, Memory};
use std::alloc::Global;

/// The text that shows the circuit: a line for its preset, for each input, for each plain vector, for each gate with its
/// wire and its bound, and for each output.
#[tactic(auto, unfolding(crate::specs::Listings::listing_of))]
pub fn listing(alloc: Global, c: &Circuit) -> Result<Bytes, Memory>
    ensures { IfOk result (λ text. text ≡ listing_of c.now) }
{
    let bounds = bounds(alloc, c)?;
    let inputs = c.inputs().as_slice();
    let mut out = Bytes::new(alloc);
    put_preset_line(&mut out, c.preset().id)?;
    put_inputs(&mut out, inputs)?;
    put_vectors(&mut out, c.vectors().as_slice())?;
    put_gates(
        &mut out,
        bounds.as_slice(),
        inputs.len(),
        c.gates().as_slice(),
    )?;
    put_outputs(&mut out, c.outputs().as_slice())?;
    Ok(out)
}

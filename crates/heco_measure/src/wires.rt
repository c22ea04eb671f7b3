//! The ciphertext of each wire.

ghost use Rattle.std.specs.Prelude.{◌≡◌, None, Some, IfOk, length, map};
ghost use Rattle.heco_run.specs.Making.{keys_of};
ghost use Rattle.heco_run.specs.Refusals.{opening_refusal};
ghost use Rattle.heco_run.specs.Shapes.{AreTwoParts, IsShaped};
ghost use Rattle.heco_run_laws.specs.Results.{wire_count};
ghost use Rattle.heco_run_laws.specs.Runs.{run_of};
ghost use Rattle.heco_measure.specs.inside.Stores.{HasFirst};

use crate::making::copied;
use heco_bfv::{Ct, Gates};
use heco_circuit::Circuit;
use heco_keys::Eval;
use heco_nums::{Memory, Preset};
use heco_run::{buffer, each_weigher, make_gate};
use std::alloc::Global;

fn copied_input(alloc: Global, p: &Preset, c: &Ct) -> Result<Ct, Memory>
    requires { IsShaped p.now.n 2 c.now }
    ensures { IfOk result (λ d. d ≡ c.now) }
{
    let first = copied(alloc, p, c.part(0))?;
    let second = copied(alloc, p, c.part(1))?;
    Ok(Ct::of(first, second))
}

/// The inputs as the first entries of a store.
fn input_store(alloc: Global, p: &Preset, ins: &[Ct]) -> Result<Vec<Option<Ct>>, Memory>
    requires { AreTwoParts p.now.n ins.now }
    ensures { IfOk result (λ store. store.items ≡ map (λ c. Some c) ins.now) }
{
    let mut store = Vec::new(alloc);
    for c in ins {
        store.push(Some(copied_input(alloc, p, c)?))?;
    }
    Ok(store)
}

/// A store that keeps the ciphertext of every wire of the circuit's run on these inputs; Memory where there is none.
pub fn kept_run(alloc: Global, c: &Circuit, e: &Eval, ins: &[Ct]) -> Result<Vec<Option<Ct>>, Memory>
    requires preset { e.now.preset.id ≡ c.now.preset }
    requires keys { opening_refusal c.now e.now.needs (length ins.now) ≡ None }
    requires inputs { AreTwoParts e.now.preset.n ins.now }
    ensures { IfOk result (λ store. HasFirst c.now e.now.preset.n (run_of e.now.preset (keys_of e.now) c.now ins.now) (wire_count c.now) store.items) }
{
    let _valid = c.preset();
    let p = e.preset();
    let mut room = Gates::open(alloc, p)?;
    let weighers = each_weigher(alloc, p, c)?;
    let mut store = input_store(alloc, p, ins)?;
    let gates = c.gates().as_slice();
    for gate in gates {
        let mut out = buffer(alloc, p, &store, *gate)?;
        make_gate(&mut room, e, weighers.as_slice(), *gate, &store, &mut out);
        store.push(Some(out))?;
    }
    Ok(store)
}

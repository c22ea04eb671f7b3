ghost use Rattle.std.specs.Prelude.{◌≡◌, ◌<◌, ◌^◌, None, IfOk, IsSome, All, ℕ, length, map, slice_index};
ghost use Rattle.std.specs.List.{range_with_len};
ghost use Rattle.heco_run.specs.Making.{keys_of};
ghost use Rattle.heco_run.specs.Refusals.{opening_refusal};
ghost use Rattle.heco_run.specs.Shapes.{AreTwoParts};
ghost use Rattle.heco_run_laws.specs.Runs.{Ciphertext};
ghost use Rattle.heco_scheme.specs.Noise.{noise};
ghost use Rattle.heco_measure.specs.Measuring.{measured_of, measured_wires};
ghost use Rattle.heco_measure.specs.inside.Plaintexts.{IsPlaintext};
ghost use Rattle.heco_measure.specs.inside.Stores.{AreEntries, ciphertext_in};

use crate::noise::noise;
use crate::wire_messages::wire_messages;
use crate::wires::kept_run;
use heco_bfv::Ct;
use heco_circuit::{Circuit, bounds};
use heco_keys::{Eval, Secret};
use heco_nums::{List, Memory};
use heco_poly::Poly;
use std::alloc::Global;

/// A wire, the noise of its ciphertext for its message, and its written bound. Both are in units of which the ciphertext
/// modulus q = 2^58 has q, over a value t z - q m for the phase z and the message m.
#[derive(Clone, Copy, Debug, PartialEq, Eq)]
pub struct Measured {
    pub wire: u32,
    pub noise: u128,
    pub bound: u128,
}

fn noise_at(
    alloc: Global,
    s: &Secret,
    store: &Vec<Option<Ct>>,
    wire: usize,
    m: &Poly,
) -> Result<u128, Memory>
    requires inside { wire < length store.now.items }
    requires entries { AreEntries s.now.preset.n store.now.items }
    requires m { IsPlaintext s.now.preset m.now }
    ensures { IfOk result (λ e. e ≡ noise s.now.preset s.now.places (ciphertext_in store.now.items wire) m.now) }
{
    match &store[wire] {
        Some(c) => noise(alloc, s, c, m),
        None => Ok(0),
    }
}

fn bound_at(bounds: &[u128], wire: usize) -> u128
    ensures { result ≡ slice_index bounds.now wire }
{
    match bounds.get(wire) {
        Some(bound) => *bound,
        None => 0,
    }
}

/// What is measured of each wire, where these are the ciphertexts, the messages and the bounds of all.
fn measure_all(
    alloc: Global,
    s: &Secret,
    store: &Vec<Option<Ct>>,
    messages: &[Poly],
    bounds: &[u128],
) -> Result<List<Measured>, Memory>
    requires count { length store.now.items ≡ length messages.now }
    requires few { length messages.now < 2 ^ 32 }
    requires entries { AreEntries s.now.preset.n store.now.items }
    requires plaintexts { All (IsPlaintext s.now.preset) messages.now }
    ensures { IfOk result (λ list. list ≡ map (measured_of s.now.preset s.now.places (ciphertext_in store.now.items) messages.now bounds.now) (range_with_len 0 (length messages.now))) }
{
    let mut list = List::new(alloc);
    for (wire, message) in messages.iter().enumerate() {
        let noise = noise_at(alloc, s, store, wire, message)?;
        list.push(Measured {
            wire: wire as u32,
            noise,
            bound: bound_at(bounds, wire),
        })?;
    }
    Ok(list)
}

/// Of each wire of the circuit's run, by rising number: its noise under the secret, for messages that begin with the raw
/// decryptions of the inputs, and its written bound. It is exact for whatever inputs and keys of the preset, of one chain
/// or not. All ciphertexts and messages are kept until the end; Memory where there is none for them.
pub fn measure(
    alloc: Global,
    c: &Circuit,
    s: &Secret,
    e: &Eval,
    ins: &[Ct],
) -> Result<List<Measured>, Memory>
    requires preset { e.now.preset.id ≡ c.now.preset }
    requires one_preset { s.now.preset ≡ e.now.preset }
    // as many inputs as the circuit has, and a switch key for each gate that takes one
    requires keys { opening_refusal c.now e.now.needs (length ins.now) ≡ None }
    requires inputs { AreTwoParts e.now.preset.n ins.now }
    ensures { IfOk result (λ list. list ≡ measured_wires e.now.preset s.now.places (keys_of e.now) c.now ins.now) }
{
    let _valid = c.preset();
    let bounds = bounds(alloc, c)?;
    let store = kept_run(alloc, c, e, ins)?;
    let messages = wire_messages(alloc, c, s, ins)?;
    measure_all(alloc, s, &store, messages.as_slice(), bounds.as_slice())
}

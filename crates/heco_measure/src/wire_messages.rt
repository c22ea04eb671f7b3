//! The message of each wire.

ghost use Rattle.std.specs.Prelude.{◌≡◌, IfOk, All, length, map};
ghost use Rattle.heco_run.specs.Shapes.{AreTwoParts, IsShaped};
ghost use Rattle.heco_run_laws.specs.Measured.{measured_messages};
ghost use Rattle.heco_run_laws.specs.Results.{wire_count};
ghost use Rattle.heco_scheme.specs.Encryption.{decrypted};
ghost use Rattle.heco_measure.specs.inside.Plaintexts.{IsPlaintext};

use crate::making::of_words;
use crate::message_gates::gate_message;
use heco_bfv::{Ct, Scratch, decrypt_poly};
use heco_circuit::Circuit;
use heco_keys::Secret;
use heco_nums::Memory;
use heco_poly::Poly;
use heco_slots::SlotTable;
use std::alloc::Global;

/// The raw decryption of an input: of both rows, before slots are read.
fn input_message(alloc: Global, s: &Secret, c: &Ct, scratch: &mut Scratch) -> Result<Poly, Memory>
    requires c { IsShaped s.now.preset.n 2 c.now }
    requires scratch { scratch.old.preset ≡ s.now.preset }
    ensures scratch { scratch.new.preset ≡ scratch.old.preset }
    ensures value { IfOk result (λ m. m ≡ decrypted s.now.preset s.now.places c.now) }
{
    let mut message = vec![in alloc; 0; s.preset().n as usize]?;
    decrypt_poly(s, c, message.as_mut_slice(), scratch);
    of_words(alloc, s.preset(), message.as_slice())
}

fn input_messages(alloc: Global, s: &Secret, ins: &[Ct]) -> Result<Vec<Poly>, Memory>
    requires { AreTwoParts s.now.preset.n ins.now }
    ensures { IfOk result (λ messages. messages.items ≡ map (decrypted s.now.preset s.now.places) ins.now) }
{
    let mut scratch = Scratch::open(alloc, s.preset())?;
    let mut messages = Vec::new(alloc);
    for c in ins {
        messages.push(input_message(alloc, s, c, &mut scratch)?)?;
    }
    Ok(messages)
}

/// The message of each wire, from the raw decryptions of the inputs; Memory where there is none.
pub fn wire_messages(
    alloc: Global,
    c: &Circuit,
    s: &Secret,
    ins: &[Ct],
) -> Result<Vec<Poly>, Memory>
    requires preset { s.now.preset.id ≡ c.now.preset }
    requires count { length ins.now ≡ length c.now.inputs }
    requires inputs { AreTwoParts s.now.preset.n ins.now }
    ensures messages { IfOk result (λ messages. messages.items ≡ measured_messages s.now.preset s.now.places c.now ins.now) }
    ensures count { IfOk result (λ messages. length messages.items ≡ wire_count c.now) }
    ensures plaintexts { IfOk result (λ messages. All (IsPlaintext s.now.preset) messages.items) }
{
    let _valid = c.preset();
    let mut messages = input_messages(alloc, s, ins)?;
    let table = SlotTable::build(alloc, s.preset())?;
    let vectors = c.vectors().as_slice();
    let gates = c.gates().as_slice();
    for gate in gates {
        let message = gate_message(alloc, &table, vectors, *gate, messages.as_slice())?;
        messages.push(message)?;
    }
    Ok(messages)
}

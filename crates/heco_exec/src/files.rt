//! A run on encrypted inputs, whatever their messages are, with the files of all that it takes and gives.

ghost use Rattle.std.specs.Prelude.{◌≡◌, ◌≤◌, ◌∷◌, [], IfOk, OnOk, length};
ghost use Rattle.heco_ciphertext_files.specs.CiphertextFiles.{AreCiphertexts, file_text, magic_of};
ghost use Rattle.heco_ciphertext_files.specs.declared.kind.FileKind.TheVariants.{Cts};
ghost use Rattle.heco_circuit.specs.CircuitFormat.{circuit_text};
ghost use Rattle.heco_key_files.specs.KeyFiles.{eval_text, lists_of as eval_lists_of, secret_text};
ghost use Rattle.heco_products.specs.Decrypting.{output_wire_count};
ghost use Rattle.heco_products.specs.Results.{keys_of, results_file};
ghost use Rattle.heco_run_laws.specs.Results.{results_of};
ghost use Rattle.heco_jobs.specs.Agents.{picking};
ghost use Rattle.heco_exec.specs.Chain.{numbered, run_files};
ghost use Rattle.heco_tasks.specs.Running.{HasKeys, Leads};

use heco_bfv::Ct;
use heco_circuit::{Circuit, write};
use heco_files::{FileKind, write_cts};
use heco_jobs::Planned;
use heco_key_files::{write_eval, write_secret};
use heco_keys::{Eval, Secret};
use heco_nums::{Bytes, List, Memory};
use heco_sched::Picker;
use heco_tasks::run_circuit;
use std::alloc::Global;

// The files of the circuit and of both keys.
fn first_files(
    alloc: Global,
    circuit: &Circuit,
    secret: &Secret,
    key: &Eval,
) -> Result<(Bytes, Bytes, Bytes), Memory>
    ensures circuit { IfOk result (λ x. x.0 ≡ circuit_text circuit.now) }
    ensures secret { IfOk result (λ x. x.1 ≡ secret_text secret.now.preset.id secret.now.places) }
    ensures key { IfOk result (λ x. x.2 ≡ eval_text key.now.preset.id (eval_lists_of key.now)) }
{
    let first = write(alloc, circuit)?;
    let second = write_secret(alloc, secret)?;
    let third = write_eval(alloc, key)?;
    Ok((first, second, third))
}

// The files of the encrypted inputs and of what the run on them gives, and that itself.
fn ran(
    alloc: Global,
    circuit: &Circuit,
    key: &Eval,
    inputs: Vec<Ct>,
    picker: &mut Box<dyn Picker>,
) -> Result<(Bytes, Bytes, List<Ct>), Memory>
    requires preset { key.now.preset.id ≡ circuit.now.preset }
    requires inputs { AreCiphertexts key.now.preset.n (length circuit.now.inputs) inputs.items }
    requires keys { HasKeys circuit.now (eval_lists_of key.now) }
    ensures inputs { IfOk result (λ x. x.0 ≡ file_text (magic_of Cts) key.now.preset.id inputs.items) }
    ensures file { IfOk result (λ x. x.1 ≡ results_file key.now.preset circuit.now (eval_lists_of key.now) inputs.items) }
    ensures results { IfOk result (λ x. x.2 ≡ results_of key.now.preset (keys_of (eval_lists_of key.now)) circuit.now inputs.items) }
    ensures ciphertexts { IfOk result (λ x. AreCiphertexts key.now.preset.n (output_wire_count circuit.now) x.2) }
    ensures leads { OnOk result (Leads circuit.now (picking (rule picker.old) (state picker.old)) (picking (rule picker.new) (state picker.new))) }
    ensures rule { rule picker.new ≡ rule picker.old }
{
    let before = write_cts(alloc, FileKind::Cts, key.preset(), inputs.as_slice())?;
    let results = run_circuit(alloc, circuit, key, inputs, picker)?;
    let file = write_cts(alloc, FileKind::Res, key.preset(), results.as_slice())?;
    Ok((before, file, results))
}

// These files in order, into the words from that of the circuit on.
fn planned_from(
    alloc: Global,
    circuit: u8,
    keys: (Bytes, Bytes, Bytes),
    ciphertexts: (Bytes, Bytes),
) -> Result<List<Planned>, Memory>
    requires { circuit ≤ 251 }
    ensures { IfOk result (λ writes. writes ≡ numbered circuit (keys.0 ∷ keys.1 ∷ keys.2 ∷ ciphertexts.0 ∷ ciphertexts.1 ∷ [])) }
{
    let secret = circuit + 1;
    let evaluation = secret + 1;
    let inputs = evaluation + 1;
    let results = inputs + 1;
    let mut writes = List::new(alloc);
    writes.push(Planned {
        which: circuit,
        bytes: keys.0,
    })?;
    writes.push(Planned {
        which: secret,
        bytes: keys.1,
    })?;
    writes.push(Planned {
        which: evaluation,
        bytes: keys.2,
    })?;
    writes.push(Planned {
        which: inputs,
        bytes: ciphertexts.0,
    })?;
    writes.push(Planned {
        which: results,
        bytes: ciphertexts.1,
    })?;
    Ok(writes)
}

/// The files of the circuit, of both keys, of the encrypted inputs and of the result of the run that the picker leads,
/// into five words from this one on; and the result.
pub fn run_files(
    alloc: Global,
    which: u8,
    circuit: &Circuit,
    secret: &Secret,
    key: &Eval,
    inputs: Vec<Ct>,
    picker: &mut Box<dyn Picker>,
) -> Result<(List<Planned>, List<Ct>), Memory>
    requires which { which ≤ 251 }
    requires same { secret.now.preset ≡ key.now.preset }
    requires preset { key.now.preset.id ≡ circuit.now.preset }
    requires inputs { AreCiphertexts key.now.preset.n (length circuit.now.inputs) inputs.items }
    requires keys { HasKeys circuit.now (eval_lists_of key.now) }
    ensures writes { IfOk result (λ x. x.0 ≡ numbered which (run_files key.now.preset circuit.now secret.now.places (eval_lists_of key.now) inputs.items)) }
    ensures results { IfOk result (λ x. x.1 ≡ results_of key.now.preset (keys_of (eval_lists_of key.now)) circuit.now inputs.items) }
    ensures ciphertexts { IfOk result (λ x. AreCiphertexts key.now.preset.n (output_wire_count circuit.now) x.1) }
    ensures leads { OnOk result (Leads circuit.now (picking (rule picker.old) (state picker.old)) (picking (rule picker.new) (state picker.new))) }
    ensures rule { rule picker.new ≡ rule picker.old }
{
    let files = first_files(alloc, circuit, secret, key)?;
    let (before, file, results) = ran(alloc, circuit, key, inputs, picker)?;
    let writes = planned_from(alloc, which, files, (before, file))?;
    Ok((writes, results))
}

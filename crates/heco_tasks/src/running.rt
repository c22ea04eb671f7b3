//! A circuit's run on ciphertexts that are read or were just made.

ghost use Rattle.std.specs.Prelude.{◌≡◌, IfOk, OnOk, length};
ghost use Rattle.heco_ciphertext_files.specs.CiphertextFiles.{AreCiphertexts};
ghost use Rattle.heco_key_files.specs.KeyFiles.{lists_of};
ghost use Rattle.heco_products.specs.Decrypting.{output_wire_count};
ghost use Rattle.heco_products.specs.Results.{keys_of};
ghost use Rattle.heco_run_laws.specs.Results.{results_of};
ghost use Rattle.heco_jobs.specs.Agents.{picking};
ghost use Rattle.heco_jobs.specs.Stages.{Settles, came};
ghost use Rattle.heco_tasks.specs.Running.{HasKeys, IsKeyRefusal, Leads, run_answer};

use crate::circuits::input_count;
use heco_bfv::Ct;
use heco_circuit::Circuit;
use heco_jobs::{Outcome, Refusal};
use heco_keys::Eval;
use heco_nums::{List, Memory};
use heco_run::{RunErr, judge, run};
use heco_sched::Picker;
use std::alloc::Global;

fn answer(error: RunErr) -> Outcome
    ensures { result ≡ run_answer error }
{
    match error {
        RunErr::MissingRelin => Outcome::Refused(Refusal::MissingRelin),
        RunErr::MissingKey { amount } => Outcome::Refused(Refusal::MissingKey { amount }),
        RunErr::Count { want, found } => Outcome::Refused(Refusal::Count {
            which: 3,
            want,
            found,
        }),
        RunErr::Memory => Outcome::Memory,
    }
}

/// Whether the evaluation key has the switch keys that the circuit needs: `MissingRelin`, or else `MissingKey` of the
/// least amount, where it has not.
pub fn judge_keys(alloc: Global, circuit: &Circuit, key: &Eval) -> Result<(), Outcome>
    ensures { Settles (λ _. HasKeys circuit.now (lists_of key.now)) (IsKeyRefusal circuit.now (lists_of key.now)) (came result) }
{
    match judge(alloc, circuit, key, input_count(circuit)) {
        Ok(()) => Ok(()),
        Err(error) => Err(answer(error)),
    }
}

// The one error of a run that nothing refuses.
fn want_of_memory(error: RunErr) -> Memory
    requires { error ≡ RunErr.Memory }
{
    let _ = error;
    Memory
}

/// The ciphertexts of the circuit's result, and the picker as the run leaves it. An error may leave the picker anywhere.
pub fn run_circuit(
    alloc: Global,
    circuit: &Circuit,
    key: &Eval,
    inputs: Vec<Ct>,
    picker: &mut Box<dyn Picker>,
) -> Result<List<Ct>, Memory>
    requires preset { key.now.preset.id ≡ circuit.now.preset }
    requires keys { HasKeys circuit.now (lists_of key.now) }
    requires inputs { AreCiphertexts key.now.preset.n (length circuit.now.inputs) inputs.items }
    ensures results { IfOk result (λ outs. outs ≡ results_of key.now.preset (keys_of (lists_of key.now)) circuit.now inputs.items) }
    ensures ciphertexts { IfOk result (λ outs. AreCiphertexts key.now.preset.n (output_wire_count circuit.now) outs) }
    ensures leads { OnOk result (Leads circuit.now (picking (rule picker.old) (state picker.old)) (picking (rule picker.new) (state picker.new))) }
    ensures rule { rule picker.new ≡ rule picker.old }
{
    let _valid = circuit.preset();
    match run(alloc, circuit, key, inputs, picker) {
        Ok(ran) => Ok(ran.outs),
        Err(error) => Err(want_of_memory(error)),
    }
}

ghost use Rattle.std.specs.Prelude.{◌≡◌};
ghost use Rattle.heco_circuit.specs.CircuitFile.{Spells};
ghost use Rattle.heco_jobs.specs.Stages.{IsThingRead, Judges};
ghost use Rattle.heco_jobs.specs.Words.{texts};
ghost use Rattle.heco_reads.specs.CircuitFiles.{IsCircuitRefusal, circuit_answer};

use heco_circuit::{CirErr, Circuit, read};
use heco_jobs::{Outcome, Refusal, read_bytes};
use heco_outside::Store;
use std::alloc::Global;

// One byte more than a circuit file may have.
const CIRCUIT_LIMIT: u64 = 1 << 29;

fn answer(error: CirErr, which: u8) -> Outcome
    ensures { result ≡ circuit_answer which error }
{
    match error {
        CirErr::Malformed { at } => Outcome::Refused(Refusal::Malformed { which, at }),
        CirErr::Noisy { gate, bound } => Outcome::Refused(Refusal::Noisy { which, gate, bound }),
        CirErr::Memory => Outcome::Memory,
    }
}

fn judge_circuit(alloc: Global, which: u8, text: &[u8]) -> Result<Circuit, Outcome>
    ensures { Judges Spells (IsCircuitRefusal which) text.now result }
{
    match read(alloc, text) {
        Ok(circuit) => Ok(circuit),
        Err(error) => Err(answer(error, which)),
    }
}

/// The circuit that this file word holds.
pub fn read_circuit<S: Store>(
    alloc: Global,
    words: &[String],
    which: u8,
    store: &mut S,
) -> Result<Circuit, Outcome>
    ensures { IsThingRead S.Store (texts words.now) which Spells (IsCircuitRefusal which) store.old store.new result }
{
    let text = read_bytes(alloc, words, which, CIRCUIT_LIMIT, store)?;
    judge_circuit(alloc, which, text.as_slice())
}

ghost use Rattle.std.specs.Prelude.{◌≡◌, ◌≤◌, ◌+◌, IfOk};
ghost use Rattle.heco_files.specs.Lengths.{longest_evaluation, secret_length};
ghost use Rattle.heco_key_files.specs.KeyFiles.{lists_of};
ghost use Rattle.heco_jobs.specs.Stages.{IsThingRead, Judges, seen};
ghost use Rattle.heco_jobs.specs.Words.{texts};
ghost use Rattle.heco_reads.specs.KeyFiles.{SpellsEvaluation, IsEvaluationRefusal, SpellsSecret, IsSecretRefusal, file_answer};

use heco_files::{FileErr, read_eval, read_secret as read_secret_file};
use heco_jobs::{Outcome, Refusal, read_bytes};
use heco_keys::{Eval, Secret};
use heco_nums::Preset;
use heco_outside::Store;
use std::alloc::Global;

/// What an error of the file in this word is answered with.
pub fn file_answer(error: FileErr, which: u8) -> Outcome
    ensures { result ≡ file_answer which error }
{
    match error {
        FileErr::Malformed { at } => Outcome::Refused(Refusal::Malformed { which, at }),
        FileErr::WrongPreset { kept, found } => {
            Outcome::Refused(Refusal::WrongPreset { which, kept, found })
        }
        FileErr::Count { want, found } => Outcome::Refused(Refusal::Count { which, want, found }),
        FileErr::Memory => Outcome::Memory,
    }
}

// ---- the evaluation key

fn judge_evaluation(alloc: Global, preset: &Preset, which: u8, text: &[u8]) -> Result<Eval, Outcome>
    ensures kept { IfOk result (λ key. key.preset ≡ preset.now) }
    ensures judged { Judges (SpellsEvaluation preset.now) (IsEvaluationRefusal which preset.now) text.now (seen lists_of result) }
{
    match read_eval(alloc, preset, text) {
        Ok(key) => Ok(key),
        Err(error) => Err(file_answer(error, which)),
    }
}

// One byte more than the longest evaluation key.
#[tactic(auto, using(heco_nums::proofs::PresetFacts::facts))]
fn evaluation_limit(preset: &Preset) -> u64
    ensures { result ≡ longest_evaluation preset.now.n preset.now.slots + 1 }
{
    let n = u64::from(preset.n);
    let slots = u64::from(preset.slots);
    9 + 2 * slots.saturating_sub(1) + 16 * n + 464 * n * slots + 1
}

/// The evaluation key that this file word holds, whatever keys it has.
pub fn read_evaluation<S: Store>(
    alloc: Global,
    preset: &Preset,
    words: &[String],
    which: u8,
    store: &mut S,
) -> Result<Eval, Outcome>
    ensures kept { IfOk result (λ key. key.preset ≡ preset.now) }
    ensures read { IsThingRead S.Store (texts words.now) which (SpellsEvaluation preset.now) (IsEvaluationRefusal which preset.now) store.old store.new (seen lists_of result) }
{
    let text = read_bytes(alloc, words, which, evaluation_limit(preset), store)?;
    judge_evaluation(alloc, preset, which, text.as_slice())
}

// ---- the secret key

fn judge_secret(alloc: Global, preset: &Preset, which: u8, text: &[u8]) -> Result<Secret, Outcome>
    ensures kept { IfOk result (λ key. key.preset ≡ preset.now) }
    ensures judged { Judges (SpellsSecret preset.now) (IsSecretRefusal which preset.now) text.now (seen (λ key. key.places) result) }
{
    match read_secret_file(alloc, preset, text) {
        Ok(key) => Ok(key),
        Err(error) => Err(file_answer(error, which)),
    }
}

// One byte more than a secret key.
fn secret_limit(preset: &Preset) -> u64
    ensures { result ≡ secret_length preset.now.n + 1 }
{
    6 + u64::from(preset.n) + 1
}

/// The secret key that this file word holds.
pub fn read_secret<S: Store>(
    alloc: Global,
    preset: &Preset,
    words: &[String],
    which: u8,
    store: &mut S,
) -> Result<Secret, Outcome>
    ensures kept { IfOk result (λ key. key.preset ≡ preset.now) }
    ensures read { IsThingRead S.Store (texts words.now) which (SpellsSecret preset.now) (IsSecretRefusal which preset.now)
        store.old store.new (seen (λ key. key.places) result) }
{
    let text = read_bytes(alloc, words, which, secret_limit(preset), store)?;
    judge_secret(alloc, preset, which, text.as_slice())
}

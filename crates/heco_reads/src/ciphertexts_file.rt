ghost use Rattle.std.specs.Prelude.{◌≡◌, ◌≤◌, ◌+◌, IfOk};
ghost use Rattle.heco_ciphertext_files.specs.CiphertextFiles.{AreCiphertexts};
ghost use Rattle.heco_files.specs.Lengths.{ciphertexts_length};
ghost use Rattle.heco_jobs.specs.Stages.{IsThingRead, Judges, seen};
ghost use Rattle.heco_jobs.specs.Words.{texts};
ghost use Rattle.heco_reads.specs.CiphertextFiles.{SpellsCiphertexts, IsCiphertextsRefusal};

use crate::key_files::file_answer;
use heco_bfv::Ct;
use heco_files::{FileKind, read_cts};
use heco_jobs::{Outcome, read_bytes};
use heco_nums::Preset;
use heco_outside::Store;
use std::alloc::Global;

fn judge_ciphertexts(
    alloc: Global,
    kind: FileKind,
    preset: &Preset,
    count: u32,
    which: u8,
    text: &[u8],
) -> Result<Vec<Ct>, Outcome>
    ensures within { IfOk result (λ cs. AreCiphertexts preset.now.n count cs.items) }
    ensures judged { Judges (SpellsCiphertexts kind preset.now count) (IsCiphertextsRefusal which kind preset.now count) text.now (seen (λ cs. cs.items) result) }
{
    match read_cts(alloc, kind, preset, count, text) {
        Ok(ciphertexts) => Ok(ciphertexts),
        Err(error) => Err(file_answer(error, which)),
    }
}

// One byte more than so many ciphertexts.
#[tactic(auto, using(heco_nums::proofs::PresetFacts::facts))]
fn limit(preset: &Preset, count: u32) -> u64
    ensures { result ≡ ciphertexts_length preset.now.n count + 1 }
{
    10 + 16 * u64::from(preset.n) * u64::from(count) + 1
}

/// The ciphertexts that this file word holds, so many of this kind.
pub fn read_ciphertexts<S: Store>(
    alloc: Global,
    kind: FileKind,
    preset: &Preset,
    count: u32,
    words: &[String],
    which: u8,
    store: &mut S,
) -> Result<Vec<Ct>, Outcome>
    ensures within { IfOk result (λ cs. AreCiphertexts preset.now.n count cs.items) }
    ensures read { IsThingRead S.Store (texts words.now) which (SpellsCiphertexts kind preset.now count) (IsCiphertextsRefusal which kind preset.now count)
        store.old store.new (seen (λ cs. cs.items) result) }
{
    let text = read_bytes(alloc, words, which, limit(preset, count), store)?;
    judge_ciphertexts(alloc, kind, preset, count, which, text.as_slice())
}

ghost use Rattle.std.specs.Prelude.{◌≡◌, ◌≤◌, ◌+◌, IfOk};
ghost use Rattle.heco_material.specs.EncFormat.{encryptions_length};
ghost use Rattle.heco_material.specs.KeyLists.{IsEncMaterial};
ghost use Rattle.heco_jobs.specs.Stages.{IsThingRead, Judges, seen};
ghost use Rattle.heco_jobs.specs.Words.{texts};
ghost use Rattle.heco_reads.specs.MaterialFiles.{SpellsEncryptions, IsEncryptionsRefusal};

use crate::material_file::answer;
use heco_jobs::{Outcome, read_bytes};
use heco_material::{EncWords, read_enc};
use heco_nums::Preset;
use heco_outside::Store;
use std::alloc::Global;

fn judge_encryptions(
    alloc: Global,
    preset: &Preset,
    count: u32,
    which: u8,
    text: &[u8],
) -> Result<EncWords, Outcome>
    ensures kept { IfOk result (λ material. material.preset ≡ preset.now) }
    ensures within { IfOk result (λ material. IsEncMaterial preset.now.n preset.now.h preset.now.b count material.rows) }
    ensures judged { Judges (SpellsEncryptions preset.now count) (IsEncryptionsRefusal which preset.now count) text.now (seen (λ material. material.rows) result) }
{
    match read_enc(alloc, preset, count, text) {
        Ok(material) => Ok(material),
        Err(error) => Err(answer(error, which)),
    }
}

// The length of the encryption material for so many inputs, and one byte more.
#[tactic(auto, using(heco_nums::proofs::PresetFacts::facts))]
fn limit(preset: &Preset, count: u32) -> u64
    ensures { result ≡ encryptions_length preset.now.n count + 1 }
{
    3 * u64::from(preset.n) * u64::from(count) + 1
}

/// The encryption material for so many inputs that this file word holds.
pub fn read_encryptions<S: Store>(
    alloc: Global,
    preset: &Preset,
    count: u32,
    words: &[String],
    which: u8,
    store: &mut S,
) -> Result<EncWords, Outcome>
    ensures kept { IfOk result (λ material. material.preset ≡ preset.now) }
    ensures within { IfOk result (λ material. IsEncMaterial preset.now.n preset.now.h preset.now.b count material.rows) }
    ensures read { IsThingRead S.Store (texts words.now) which (SpellsEncryptions preset.now count) (IsEncryptionsRefusal which preset.now count)
        store.old store.new (seen (λ material. material.rows) result) }
{
    let text = read_bytes(alloc, words, which, limit(preset, count), store)?;
    judge_encryptions(alloc, preset, count, which, text.as_slice())
}

ghost use Rattle.std.specs.Prelude.{◌≡◌, ◌≤◌, ◌+◌, IfOk, length};
ghost use Rattle.heco_material.specs.KeyFormat.{keys_length};
ghost use Rattle.heco_material.specs.KeyLists.{lists_of, key_count, IsKeyMaterial};
ghost use Rattle.heco_jobs.specs.Stages.{IsThingRead, Judges, seen};
ghost use Rattle.heco_jobs.specs.Words.{texts};
ghost use Rattle.heco_reads.specs.MaterialFiles.{SpellsKeys, IsKeysRefusal, material_answer};

use heco_jobs::{Outcome, Refusal, read_bytes};
use heco_material::{KeyWords, MatErr, read_keys};
use heco_nums::{KeyNeeds, Preset};
use heco_outside::Store;
use std::alloc::Global;

/// What an error of the material in this word is answered with.
pub fn answer(error: MatErr, which: u8) -> Outcome
    ensures { result ≡ material_answer which error }
{
    match error {
        MatErr::Length { at } => Outcome::Refused(Refusal::Length { which, at }),
        MatErr::Bounds { at } => Outcome::Refused(Refusal::Bounds { which, at }),
        MatErr::Memory => Outcome::Memory,
    }
}

fn judge_material(
    alloc: Global,
    preset: &Preset,
    needs: &KeyNeeds,
    which: u8,
    text: &[u8],
) -> Result<KeyWords, Outcome>
    ensures kept { IfOk result (λ k. (k.preset ≡ preset.now) × (k.needs.relin ≡ needs.now.relin) × (k.needs.turns ≡ needs.now.turns)) }
    ensures within { IfOk result (λ k. IsKeyMaterial k.preset.n k.preset.h k.preset.b (key_count k.needs) (lists_of k)) }
    ensures judged { Judges (SpellsKeys preset.now (key_count needs.now)) (IsKeysRefusal which preset.now (key_count needs.now)) text.now (seen lists_of result) }
{
    match read_keys(alloc, preset, needs, text) {
        Ok(words) => Ok(words),
        Err(error) => Err(answer(error, which)),
    }
}

// How many switch keys are needed.
fn key_count(needs: &KeyNeeds) -> u64
    requires { length needs.now.turns ≤ 511 }
    ensures count { result ≡ key_count needs.now }
    ensures few { result ≤ 512 }
{
    let turns = needs.turns.len() as u64;
    if needs.relin { 1 + turns } else { turns }
}

// The length of the key material, and one byte more.
#[tactic(auto, using(heco_nums::proofs::PresetFacts::facts))]
fn limit(preset: &Preset, needs: &KeyNeeds) -> u64
    requires { length needs.now.turns ≤ 511 }
    ensures { result ≡ keys_length preset.now.n (key_count needs.now) + 1 }
{
    let n = u64::from(preset.n);
    10 * n + 261 * n * key_count(needs) + 1
}

/// The key material for these needs that this file word holds.
pub fn read_material<S: Store>(
    alloc: Global,
    preset: &Preset,
    needs: &KeyNeeds,
    words: &[String],
    which: u8,
    store: &mut S,
) -> Result<KeyWords, Outcome>
    requires { length needs.now.turns ≤ 511 }
    ensures kept { IfOk result (λ k. (k.preset ≡ preset.now) × (k.needs.relin ≡ needs.now.relin) × (k.needs.turns ≡ needs.now.turns)) }
    ensures within { IfOk result (λ k. IsKeyMaterial k.preset.n k.preset.h k.preset.b (key_count k.needs) (lists_of k)) }
    ensures read { IsThingRead S.Store (texts words.now) which (SpellsKeys preset.now (key_count needs.now)) (IsKeysRefusal which preset.now (key_count needs.now))
        store.old store.new (seen lists_of result) }
{
    let text = read_bytes(alloc, words, which, limit(preset, needs), store)?;
    judge_material(alloc, preset, needs, which, text.as_slice())
}

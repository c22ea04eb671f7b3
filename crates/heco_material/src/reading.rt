ghost use Rattle.std.specs.Prelude.{◌≡◌, ◌≢◌, ℕ, ◌-◌, length, min, [], List as Seq, IfOk, IfErr};
ghost use Rattle.heco_fields.specs.Formats.{BreaksAt};
ghost use Rattle.heco_fields.specs.Readings.{judged, reading};
ghost use Rattle.heco_material.specs.declared.error.MatErr.TheVariants.{Length, Bounds};
ghost use Rattle.heco_material.specs.declared.words.EncRow.{EncRow};
ghost use Rattle.heco_material.specs.KeyLists.{KeyLists, key_lists, lists_of, key_count, IsKeyMaterial, IsEncMaterial};
ghost use Rattle.heco_material.specs.KeyFormat.{keys, keys_text, keys_length};
ghost use Rattle.heco_material.specs.EncFormat.{encryptions, encryptions_text, encryptions_length};
ghost use Rattle.heco_material.specs.MaterialFile.{bounded, read_as, Answers, HasCause};

use crate::error::MatErr;
use crate::file_length::{judge_length, key_count};
use crate::read_rows::{Lists, encryptions_at, keys_at};
use crate::words::{EncRow, EncWords, KeyWords};
use heco_fields::Fault;
use heco_nums::{KeyNeeds, List, Memory, Preset};
use std::alloc::Global;

// Where a field begins that has so many bytes left.
fn broken_at(bytes: &[u8], left: u64) -> MatErr
    ensures { result ≡ MatErr.Bounds (length bytes.now - left) }
{
    MatErr::Bounds {
        at: (bytes.len() as u64).saturating_sub(left),
    }
}

fn key_fields(alloc: Global, p: &Preset, count: usize, bytes: &[u8]) -> Result<Lists, MatErr>
    ensures { Answers (λ l. key_lists l.s l.a l.e l.switch) result (bounded (judged bytes.now [] (reading (keys p.now.n p.now.h p.now.b count) bytes.now))) }
{
    match keys_at(alloc, p, count, bytes) {
        Ok((lists, rest)) => {
            if rest.len() > 0 {
                return Err(broken_at(bytes, rest.len() as u64));
            }
            Ok(lists)
        }
        Err(Fault::Broken { left }) => Err(broken_at(bytes, left)),
        Err(Fault::Memory) => Err(MatErr::Memory),
    }
}

#[tactic(auto, unfolding(crate::specs::MaterialFile::read_as))]
fn read_lists(alloc: Global, p: &Preset, count: usize, bytes: &[u8]) -> Result<Lists, MatErr>
    ensures { Answers (λ l. key_lists l.s l.a l.e l.switch) result (read_as (keys p.now.n p.now.h p.now.b count) (keys_length p.now.n count) bytes.now) }
{
    let n = u128::from(p.n);
    judge_length(bytes, 10 * n + 261 * n * (count as u128))?;
    key_fields(alloc, p, count, bytes)
}

/// The key material that the file holds, for the switch keys of the needs. `Length` comes exactly where the length is
/// not the stated one, and then `Bounds` exactly where a word is out of bounds, with the offset of the first: the
/// (h+1)-th place of the secret that is not 0 is one.
pub fn read_keys(
    alloc: Global,
    p: &Preset,
    needs: &KeyNeeds,
    bytes: &[u8],
) -> Result<KeyWords, MatErr>
    ensures kept { IfOk result (λ k. (k.preset ≡ p.now) × (k.needs.relin ≡ needs.now.relin) × (k.needs.turns ≡ needs.now.turns)) }
    ensures spelled { IfOk result (λ k. IsKeyMaterial p.now.n p.now.h p.now.b (key_count needs.now) (lists_of k) × (bytes.now ≡ keys_text (lists_of k))) }
    ensures only { (k : KeyLists) → IsKeyMaterial p.now.n p.now.h p.now.b (key_count needs.now) k → bytes.now ≡ keys_text k → Answers lists_of result (Ok k) }
    ensures cause { IfErr result (HasCause (keys p.now.n p.now.h p.now.b (key_count needs.now)) (keys_length p.now.n (key_count needs.now)) bytes.now) }
    ensures long { length bytes.now ≢ keys_length p.now.n (key_count needs.now) → Answers lists_of result (Err (Length (min (length bytes.now) (keys_length p.now.n (key_count needs.now))))) }
    ensures bounds { (at : ℕ) → length bytes.now ≡ keys_length p.now.n (key_count needs.now) → BreaksAt (keys p.now.n p.now.h p.now.b (key_count needs.now)) bytes.now [] at
        → Answers lists_of result (Err (Bounds at)) }
{
    read_words(alloc, p, needs, bytes)
}

fn read_words(alloc: Global, p: &Preset, needs: &KeyNeeds, bytes: &[u8]) -> Result<KeyWords, MatErr>
    ensures kept { IfOk result (λ k. (k.preset ≡ p.now) × (k.needs.relin ≡ needs.now.relin) × (k.needs.turns ≡ needs.now.turns)) }
    ensures exact { Answers lists_of result (read_as (keys p.now.n p.now.h p.now.b (key_count needs.now)) (keys_length p.now.n (key_count needs.now)) bytes.now) }
{
    let Lists { s, a, e, switch } = read_lists(alloc, p, key_count(needs), bytes)?;
    let needs = needs.copy(alloc)?;
    Ok(KeyWords {
        preset: *p,
        needs,
        s,
        a,
        e,
        switch,
    })
}

fn enc_fields(alloc: Global, p: &Preset, count: u32, bytes: &[u8]) -> Result<List<EncRow>, MatErr>
    ensures { Answers (λ rows. rows) result (bounded (judged bytes.now [] (reading (encryptions p.now.n p.now.h p.now.b count) bytes.now))) }
{
    match encryptions_at(alloc, p, count, bytes) {
        Ok((rows, rest)) => {
            if rest.len() > 0 {
                return Err(broken_at(bytes, rest.len() as u64));
            }
            Ok(rows)
        }
        Err(Fault::Broken { left }) => Err(broken_at(bytes, left)),
        Err(Fault::Memory) => Err(MatErr::Memory),
    }
}

#[tactic(auto, unfolding(crate::specs::MaterialFile::read_as))]
fn read_rows(alloc: Global, p: &Preset, count: u32, bytes: &[u8]) -> Result<List<EncRow>, MatErr>
    ensures { Answers (λ rows. rows) result (read_as (encryptions p.now.n p.now.h p.now.b count) (encryptions_length p.now.n count) bytes.now) }
{
    judge_length(bytes, 3 * u128::from(p.n) * u128::from(count))?;
    enc_fields(alloc, p, count, bytes)
}

/// The encryption material that the file holds, for so many inputs. `Length` comes exactly where the length is not
/// the stated one, and then `Bounds` exactly where a word is out of bounds, with the offset of the first: the (h+1)-th
/// place that is not 0 of each secret is one.
pub fn read_enc(alloc: Global, p: &Preset, count: u32, bytes: &[u8]) -> Result<EncWords, MatErr>
    ensures kept { IfOk result (λ w. w.preset ≡ p.now) }
    ensures spelled { IfOk result (λ w. IsEncMaterial p.now.n p.now.h p.now.b count w.rows × (bytes.now ≡ encryptions_text w.rows)) }
    ensures only { (rows : Seq EncRow) → IsEncMaterial p.now.n p.now.h p.now.b count rows → bytes.now ≡ encryptions_text rows → Answers (λ w. w.rows) result (Ok rows) }
    ensures cause { IfErr result (HasCause (encryptions p.now.n p.now.h p.now.b count) (encryptions_length p.now.n count) bytes.now) }
    ensures long { length bytes.now ≢ encryptions_length p.now.n count → Answers (λ w. w.rows) result (Err (Length (min (length bytes.now) (encryptions_length p.now.n count)))) }
    ensures bounds { (at : ℕ) → length bytes.now ≡ encryptions_length p.now.n count → BreaksAt (encryptions p.now.n p.now.h p.now.b count) bytes.now [] at
        → Answers (λ w. w.rows) result (Err (Bounds at)) }
{
    read_enc_words(alloc, p, count, bytes)
}

fn read_enc_words(alloc: Global, p: &Preset, count: u32, bytes: &[u8]) -> Result<EncWords, MatErr>
    ensures kept { IfOk result (λ w. w.preset ≡ p.now) }
    ensures exact { Answers (λ w. w.rows) result (read_as (encryptions p.now.n p.now.h p.now.b count) (encryptions_length p.now.n count) bytes.now) }
{
    let rows = read_rows(alloc, p, count, bytes)?;
    Ok(EncWords { preset: *p, rows })
}

ghost use Rattle.std.specs.Prelude.{◌≡◌, ◌≢◌, ℕ, ℤ, [], List as Seq, IfOk, IfErr, codes};
ghost use Rattle.heco_fields.specs.Formats.{BreaksAt};
ghost use Rattle.heco_nums.specs.MaterialBounds.{IsSparse};
ghost use Rattle.heco_lists.specs.ListFormat.{sparse};
ghost use Rattle.heco_lists.specs.declared.error.FileErr.TheVariants.{Malformed, WrongPreset};
ghost use Rattle.heco_key_files.specs.Judging.{Answers, HasCause, NamesNoOther, NamesPreset, body_as, file_as, whole};
ghost use Rattle.heco_key_files.specs.KeyFiles.{secret_text};

use crate::header::{behind_header, broken_at};
use heco_fields::{Fault, put_header};
use heco_keys::Secret;
use heco_lists::{FileErr, put_bytes, sparse_at};
use heco_nums::{Bytes, List, Memory, Preset};
use std::alloc::Global;

#[tactic(auto, unfolding(crate::specs::Judging::body_as))]
fn body(alloc: Global, p: &Preset, bytes: &[u8], rest: &[u8]) -> Result<List<i8>, FileErr>
    ensures { Answers (λ s. s) result (body_as (sparse p.now.n p.now.h) bytes.now rest.now) }
{
    match sparse_at(alloc, p.n, p.h, rest) {
        Ok((places, beyond)) => {
            if beyond.len() > 0 {
                return Err(broken_at(bytes, beyond.len() as u64));
            }
            Ok(places)
        }
        Err(Fault::Broken { left }) => Err(broken_at(bytes, left)),
        Err(Fault::Memory) => Err(FileErr::Memory),
    }
}

#[tactic(auto, unfolding(crate::specs::Judging::file_as))]
fn file(alloc: Global, p: &Preset, bytes: &[u8]) -> Result<List<i8>, FileErr>
    ensures { Answers (λ s. s) result (file_as (codes "HSEC") p.now.id (sparse p.now.n p.now.h) bytes.now) }
{
    let rest = behind_header(p, b"HSEC", bytes)?;
    body(alloc, p, bytes, rest)
}

fn places(alloc: Global, p: &Preset, bytes: &[u8]) -> Result<List<i8>, FileErr>
    ensures exact { Answers (λ s. s) result (file_as (codes "HSEC") p.now.id (sparse p.now.n p.now.h) bytes.now) }
    ensures within { IfOk result (λ s. IsSparse p.now.n p.now.h s) }
{
    file(alloc, p, bytes)
}

fn key(alloc: Global, p: &Preset, bytes: &[u8]) -> Result<Secret, FileErr>
    ensures kept { IfOk result (λ s. s.preset ≡ p.now) }
    ensures exact { Answers (λ s. s.places) result (file_as (codes "HSEC") p.now.id (sparse p.now.n p.now.h) bytes.now) }
{
    let places = places(alloc, p, bytes)?;
    Ok(Secret::of(p, places)?)
}

/// The secret key that the file holds: a header, and a byte for each place, 0, 1 or 255 for -1. The (h+1)-th byte
/// that is not 0 is broken. A whole header of another preset is `WrongPreset`; otherwise `Malformed` has the first
/// broken field.
pub fn read_secret(alloc: Global, p: &Preset, bytes: &[u8]) -> Result<Secret, FileErr>
    ensures kept { IfOk result (λ s. s.preset ≡ p.now) }
    ensures spelled { IfOk result (λ s. IsSparse p.now.n p.now.h s.places × (bytes.now ≡ secret_text p.now.id s.places)) }
    ensures only { (s : Seq ℤ) → IsSparse p.now.n p.now.h s → bytes.now ≡ secret_text p.now.id s → Answers (λ k. k.places) result (Ok s) }
    ensures cause { IfErr result (HasCause (codes "HSEC") p.now.id (sparse p.now.n p.now.h) bytes.now) }
    ensures malformed { (at : ℕ) → BreaksAt (whole (codes "HSEC") (sparse p.now.n p.now.h)) bytes.now [] at → NamesNoOther (codes "HSEC") p.now.id bytes.now
        → Answers (λ k. k.places) result (Err (Malformed at)) }
    ensures wrong { (found : ℕ) → found ≢ p.now.id → NamesPreset (codes "HSEC") found bytes.now → Answers (λ k. k.places) result (Err (WrongPreset p.now.id found)) }
{
    key(alloc, p, bytes)
}

#[tactic(auto, unfolding(crate::specs::KeyFiles::secret_text))]
fn text(alloc: Global, s: &Secret) -> Result<Bytes, Memory>
    ensures { IfOk result (λ bytes. bytes ≡ secret_text s.now.preset.id s.now.places) }
{
    let mut out = Bytes::new(alloc);
    put_header(&mut out, b"HSEC", s.preset().id)?;
    put_bytes(&mut out, s.as_slice())?;
    Ok(out)
}

/// The file of the secret key. The reader reads it back from there, and no other secret key of the preset has this
/// file.
pub fn write_secret(alloc: Global, s: &Secret) -> Result<Bytes, Memory>
    ensures text { IfOk result (λ bytes. bytes ≡ secret_text s.now.preset.id s.now.places) }
    ensures back { let p = s.now.preset in IfOk result (λ bytes. file_as (codes "HSEC") p.id (sparse p.n p.h) bytes ≡ Ok s.now.places) }
    ensures own { let p = s.now.preset in (other : Seq ℤ) → IsSparse p.n p.h other → IfOk result (λ bytes. bytes ≡ secret_text p.id other → s.now.places ≡ other) }
{
    text(alloc, s)
}

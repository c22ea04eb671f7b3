ghost use Rattle.std.specs.Prelude.{◌≡◌, ◌≢◌, ℕ, [], List as Seq, IfOk, IfErr};
ghost use Rattle.heco_fields.specs.Formats.{BreaksAt};
ghost use Rattle.heco_fields.specs.Readings.{Gives, reading};
ghost use Rattle.heco_lists.specs.declared.error.FileErr.TheVariants.{Count, Malformed, WrongPreset};
ghost use Rattle.heco_key_files.specs.Judging.{Answers, NamesNoOther, NamesPreset, body_as};
ghost use Rattle.heco_ciphertext_files.specs.CiphertextFiles.{AreCiphertexts, ciphertexts, file_text, magic_of};
ghost use Rattle.heco_ciphertext_files.specs.Counted.{CountsNoOther, HasCountedCause, NamesCount, behind_count, count_as, counted_as, whole_counted};

use crate::kind::FileKind;
use crate::parts::ciphertext_at;
use heco_bfv::Ct;
use heco_fields::{Fault, u32_at};
use heco_key_files::{behind_header, broken_at};
use heco_lists::FileErr;
use heco_nums::{List, Preset};
use std::alloc::Global;

/// The bytes behind a count that is the wanted one.
#[tactic(auto, unfolding(heco_key_files::specs::Judging::wanted))]
fn behind_wanted<'a>(want: u32, bytes: &[u8], rest: &'a [u8]) -> Result<&'a [u8], FileErr>
    ensures { Answers (λ last. last.now) result (count_as bytes.now want rest.now) }
{
    match u32_at(rest) {
        Ok((found, last)) => {
            if found != want {
                return Err(FileErr::Count { want, found });
            }
            Ok(last)
        }
        Err(Fault::Broken { left }) => Err(broken_at(bytes, left)),
        Err(Fault::Memory) => Err(FileErr::Memory),
    }
}

#[tactic(auto, unfolding(crate::specs::CiphertextFiles::ciphertexts))]
fn ciphertexts_at<'a>(
    alloc: Global,
    p: &Preset,
    count: u32,
    bytes: &'a [u8],
) -> Result<(List<Ct>, &'a [u8]), Fault>
    ensures { Gives (λ x. (x.0, x.1.now)) result (reading (ciphertexts p.now.n count) bytes.now) }
{
    let mut list = List::new(alloc);
    let mut rest = bytes;
    for _ in 0..count {
        let (ciphertext, after) = ciphertext_at(alloc, p, rest)?;
        list.push(ciphertext)?;
        rest = after;
    }
    Ok((list, rest))
}

#[tactic(auto, unfolding(heco_key_files::specs::Judging::body_as))]
fn body(
    alloc: Global,
    p: &Preset,
    want: u32,
    bytes: &[u8],
    rest: &[u8],
) -> Result<List<Ct>, FileErr>
    ensures { Answers (λ cs. cs) result (body_as (ciphertexts p.now.n want) bytes.now rest.now) }
{
    match ciphertexts_at(alloc, p, want, rest) {
        Ok((list, beyond)) => {
            if beyond.len() > 0 {
                return Err(broken_at(bytes, beyond.len() as u64));
            }
            Ok(list)
        }
        Err(Fault::Broken { left }) => Err(broken_at(bytes, left)),
        Err(Fault::Memory) => Err(FileErr::Memory),
    }
}

#[tactic(auto, unfolding(crate::specs::Counted::behind_count))]
fn counted(
    alloc: Global,
    p: &Preset,
    want: u32,
    bytes: &[u8],
    rest: &[u8],
) -> Result<List<Ct>, FileErr>
    ensures { Answers (λ cs. cs) result (behind_count want (ciphertexts p.now.n want) bytes.now rest.now) }
{
    let last = behind_wanted(want, bytes, rest)?;
    body(alloc, p, want, bytes, last)
}

#[tactic(auto, unfolding(crate::specs::Counted::counted_as))]
fn file(
    alloc: Global,
    k: FileKind,
    p: &Preset,
    want: u32,
    bytes: &[u8],
) -> Result<List<Ct>, FileErr>
    ensures { Answers (λ cs. cs) result (counted_as (magic_of k) p.now.id want (ciphertexts p.now.n want) bytes.now) }
{
    let rest = behind_header(p, k.magic(), bytes)?;
    counted(alloc, p, want, bytes, rest)
}

fn vector(
    alloc: Global,
    k: FileKind,
    p: &Preset,
    want: u32,
    bytes: &[u8],
) -> Result<Vec<Ct>, FileErr>
    ensures { Answers (λ cs. cs.items) result (counted_as (magic_of k) p.now.id want (ciphertexts p.now.n want) bytes.now) }
{
    let list = file(alloc, k, p, want, bytes)?;
    Ok(list.into_vec())
}

/// The ciphertexts that the file holds, of two parts each: a header, their number, and for each the n words of its
/// parts. A whole header of another preset is `WrongPreset`, another number behind it is `Count`; otherwise
/// `Malformed` has the first broken field.
pub fn read_cts(
    alloc: Global,
    k: FileKind,
    p: &Preset,
    want: u32,
    bytes: &[u8],
) -> Result<Vec<Ct>, FileErr>
    ensures spelled { IfOk result (λ cs. AreCiphertexts p.now.n want cs.items × (bytes.now ≡ file_text (magic_of k) p.now.id cs.items)) }
    ensures only { (cs : Seq (Seq (Seq ℕ))) → AreCiphertexts p.now.n want cs → bytes.now ≡ file_text (magic_of k) p.now.id cs → Answers (λ c. c.items) result (Ok cs) }
    ensures cause { IfErr result (HasCountedCause (magic_of k) p.now.id want (ciphertexts p.now.n want) bytes.now) }
    ensures malformed { (at : ℕ) → BreaksAt (whole_counted (magic_of k) (ciphertexts p.now.n want)) bytes.now [] at → NamesNoOther (magic_of k) p.now.id bytes.now
        → CountsNoOther (magic_of k) p.now.id want bytes.now → Answers (λ c. c.items) result (Err (Malformed at)) }
    ensures wrong { (found : ℕ) → found ≢ p.now.id → NamesPreset (magic_of k) found bytes.now → Answers (λ c. c.items) result (Err (WrongPreset p.now.id found)) }
    ensures count { (found : ℕ) → found ≢ want → NamesCount (magic_of k) p.now.id found bytes.now → Answers (λ c. c.items) result (Err (Count want found)) }
{
    vector(alloc, k, p, want, bytes)
}

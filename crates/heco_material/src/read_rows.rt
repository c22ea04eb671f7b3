ghost use Rattle.std.specs.Prelude.{◌≡◌, ◌<◌, ◌^◌};
ghost use Rattle.heco_fields.specs.Formats.{many};
ghost use Rattle.heco_nums.specs.Runs.{stays};
ghost use Rattle.heco_fields.specs.Readings.{Gives, reading};
ghost use Rattle.heco_material.specs.KeyLists.{key_lists};
ghost use Rattle.heco_material.specs.KeyFormat.{row, switch, switches, keys};
ghost use Rattle.heco_material.specs.EncFormat.{encryption, encryptions};

use crate::words::{EncRow, SwitchRow, SwitchWords};
use heco_fields::Fault;
use heco_lists::{errors_at, sparse_at, words_at};
use heco_nums::{List, Preset};
use std::alloc::Global;

#[tactic(auto, using(heco_fields::proofs::Steps::reading_then), unfolding(crate::specs::KeyFormat::row, heco_fields::specs::Readings::reading))]
fn row_at<'a>(alloc: Global, p: &Preset, bytes: &'a [u8]) -> Result<(SwitchRow, &'a [u8]), Fault>
    ensures { Gives (λ x. (x.0, x.1.now)) result (reading (row p.now.n p.now.b 0) bytes.now) }
{
    let (a, rest) = words_at(alloc, p.n, bytes)?;
    let (e, rest) = errors_at(alloc, p.n, p.b, rest)?;
    Ok((SwitchRow { a, e }, rest))
}

fn rows_at<'a>(
    alloc: Global,
    p: &Preset,
    bytes: &'a [u8],
) -> Result<(List<SwitchRow>, &'a [u8]), Fault>
    ensures { Gives (λ x. (x.0, x.1.now)) result (reading (many (row p.now.n p.now.b) stays 29 0) bytes.now) }
{
    let mut rows = List::new(alloc);
    let mut rest = bytes;
    for _ in 0..29u32 {
        let (row, after) = row_at(alloc, p, rest)?;
        rows.push(row)?;
        rest = after;
    }
    Ok((rows, rest))
}

#[tactic(auto, using(heco_fields::proofs::Steps::reading_then), unfolding(crate::specs::KeyFormat::switch, heco_fields::specs::Readings::reading))]
fn switch_at<'a>(
    alloc: Global,
    p: &Preset,
    bytes: &'a [u8],
) -> Result<(SwitchWords, &'a [u8]), Fault>
    ensures { Gives (λ x. (x.0, x.1.now)) result (reading (switch p.now.n p.now.b 0) bytes.now) }
{
    let (rows, rest) = rows_at(alloc, p, bytes)?;
    Ok((SwitchWords { rows }, rest))
}

#[tactic(auto, unfolding(crate::specs::KeyFormat::switches))]
fn switches_at<'a>(
    alloc: Global,
    p: &Preset,
    count: usize,
    bytes: &'a [u8],
) -> Result<(List<SwitchWords>, &'a [u8]), Fault>
    ensures { Gives (λ x. (x.0, x.1.now)) result (reading (switches p.now.n p.now.b count) bytes.now) }
{
    let mut switches = List::new(alloc);
    let mut rest = bytes;
    for _ in 0..count {
        let (switch, after) = switch_at(alloc, p, rest)?;
        switches.push(switch)?;
        rest = after;
    }
    Ok((switches, rest))
}

/// The lists of key material: the secret, the word and the error of the public key, and each switch key's words.
#[derive(Debug, Drop)]
pub struct Lists {
    pub s: List<i8>,
    pub a: List<u64>,
    pub e: List<i8>,
    pub switch: List<SwitchWords>,
}

/// The fields of key material with so many switch keys.
#[tactic(auto, using(heco_fields::proofs::Steps::reading_then), unfolding(crate::specs::KeyFormat::keys, heco_fields::specs::Readings::reading))]
pub fn keys_at<'a>(
    alloc: Global,
    p: &Preset,
    count: usize,
    bytes: &'a [u8],
) -> Result<(Lists, &'a [u8]), Fault>
    ensures { Gives (λ x. (key_lists x.0.s x.0.a x.0.e x.0.switch, x.1.now)) result (reading (keys p.now.n p.now.h p.now.b count) bytes.now) }
{
    let (s, rest) = sparse_at(alloc, p.n, p.h, bytes)?;
    let (a, rest) = words_at(alloc, p.n, rest)?;
    let (e, rest) = errors_at(alloc, p.n, p.b, rest)?;
    let (switch, rest) = switches_at(alloc, p, count, rest)?;
    Ok((Lists { s, a, e, switch }, rest))
}

#[tactic(auto, using(heco_fields::proofs::Steps::reading_then), unfolding(crate::specs::EncFormat::encryption, heco_fields::specs::Readings::reading))]
fn encryption_at<'a>(
    alloc: Global,
    p: &Preset,
    bytes: &'a [u8],
) -> Result<(EncRow, &'a [u8]), Fault>
    ensures { Gives (λ x. (x.0, x.1.now)) result (reading (encryption p.now.n p.now.h p.now.b 0) bytes.now) }
{
    let (u, rest) = sparse_at(alloc, p.n, p.h, bytes)?;
    let (e1, rest) = errors_at(alloc, p.n, p.b, rest)?;
    let (e2, rest) = errors_at(alloc, p.n, p.b, rest)?;
    Ok((EncRow { u, e1, e2 }, rest))
}

/// The fields of encryption material for so many inputs.
#[tactic(auto, unfolding(crate::specs::EncFormat::encryptions))]
pub fn encryptions_at<'a>(
    alloc: Global,
    p: &Preset,
    count: u32,
    bytes: &'a [u8],
) -> Result<(List<EncRow>, &'a [u8]), Fault>
    ensures { Gives (λ x. (x.0, x.1.now)) result (reading (encryptions p.now.n p.now.h p.now.b count) bytes.now) }
{
    let mut rows = List::new(alloc);
    let mut rest = bytes;
    for _ in 0..count {
        let (row, after) = encryption_at(alloc, p, rest)?;
        rows.push(row)?;
        rest = after;
    }
    Ok((rows, rest))
}

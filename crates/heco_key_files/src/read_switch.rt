ghost use Rattle.std.specs.Prelude.{◌≡◌, ◌<◌, ◌≤◌, ◌^◌, length, map, IfOk};
ghost use Rattle.heco_fields.specs.Formats.{many};
ghost use Rattle.heco_nums.specs.Runs.{stays};
ghost use Rattle.heco_fields.specs.Readings.{Gives, reading};
ghost use Rattle.heco_nums.specs.MaterialBounds.{AreWords};
ghost use Rattle.heco_lists.specs.ListFormat.{words};
ghost use Rattle.heco_key_files.specs.KeyFiles.{turn, latest, pair, switch_key};

use heco_fields::{Fault, u16_within};
use heco_keys::{SwitchKey, poly_of};
use heco_lists::words_at;
use heco_nums::{List, Preset};
use heco_poly::Poly;
use heco_transform::Transform;
use std::alloc::Global;

fn list_at<'a>(alloc: Global, p: &Preset, bytes: &'a [u8]) -> Result<(List<u64>, &'a [u8]), Fault>
    ensures read { Gives (λ x. (x.0, x.1.now)) result (reading (words p.now.n) bytes.now) }
    ensures within { IfOk result (λ x. AreWords p.now.n x.0) }
{
    words_at(alloc, p.n, bytes)
}

/// A polynomial: n words below 2^58.
pub fn poly_at<'a>(alloc: Global, p: &Preset, bytes: &'a [u8]) -> Result<(Poly, &'a [u8]), Fault>
    ensures read { Gives (λ x. (x.0, x.1.now)) result (reading (words p.now.n) bytes.now) }
    ensures long { IfOk result (λ x. length x.0 ≡ p.now.n) }
{
    let (list, rest) = list_at(alloc, p, bytes)?;
    Ok((poly_of(alloc, p, list.as_slice())?, rest))
}

/// The pair of a row.
#[tactic(auto, using(heco_fields::proofs::Steps::reading_then), unfolding(crate::specs::KeyFiles::pair, heco_fields::specs::Readings::reading))]
fn pair_at<'a>(
    alloc: Global,
    p: &Preset,
    bytes: &'a [u8],
) -> Result<((Poly, Poly), &'a [u8]), Fault>
    ensures { Gives (λ x. (x.0, x.1.now)) result (reading (pair p.now.n 0) bytes.now) }
{
    let (first, rest) = poly_at(alloc, p, bytes)?;
    let (second, rest) = poly_at(alloc, p, rest)?;
    Ok(((first, second), rest))
}

fn pairs_at<'a>(
    alloc: Global,
    p: &Preset,
    bytes: &'a [u8],
) -> Result<(List<(Poly, Poly)>, &'a [u8]), Fault>
    ensures read { Gives (λ x. (x.0, x.1.now)) result (reading (many (pair p.now.n) stays 29 0) bytes.now) }
    ensures count { IfOk result (λ x. length x.0 ≡ 29) }
{
    let mut pairs = List::new(alloc);
    let mut rest = bytes;
    for _ in 0..29u32 {
        let (pair, after) = pair_at(alloc, p, rest)?;
        pairs.push(pair)?;
        rest = after;
    }
    Ok((pairs, rest))
}

/// A switch key, with its images.
#[tactic(auto, unfolding(crate::specs::KeyFiles::switch_key))]
fn switch_at<'a>(
    alloc: Global,
    p: &Preset,
    transform: &Transform,
    bytes: &'a [u8],
) -> Result<(SwitchKey, &'a [u8]), Fault>
    ensures { Gives (λ x. (x.0.rows, x.1.now)) result (reading (switch_key p.now.n 0) bytes.now) }
{
    let (pairs, rest) = pairs_at(alloc, p, bytes)?;
    let key = SwitchKey::of(pairs).imaged(alloc, transform)?;
    Ok((key, rest))
}

/// So many switch keys.
pub fn switches_at<'a>(
    alloc: Global,
    p: &Preset,
    count: u32,
    bytes: &'a [u8],
) -> Result<(List<SwitchKey>, &'a [u8]), Fault>
    ensures read { Gives (λ x. (map (λ k. k.rows) x.0, x.1.now)) result (reading (many (switch_key p.now.n) stays count 0) bytes.now) }
    ensures count { IfOk result (λ x. length x.0 ≡ count) }
{
    let transform = Transform::of_preset(alloc, p)?;
    let mut keys = List::new(alloc);
    let mut rest = bytes;
    for _ in 0..count {
        let (key, after) = switch_at(alloc, p, &transform, rest)?;
        keys.push(key)?;
        rest = after;
    }
    Ok((keys, rest))
}

/// So many turns, each above the last and below `slots`.
pub fn turns_at(
    alloc: Global,
    slots: u16,
    count: u16,
    bytes: &[u8],
) -> Result<(List<u16>, &[u8]), Fault>
    requires { 0 < slots }
    ensures { Gives (λ x. (x.0, x.1.now)) result (reading (many (turn slots) latest count 0) bytes.now) }
{
    let mut turns = List::new(alloc);
    let mut last = 0u16;
    let mut rest = bytes;
    for _ in 0..count {
        let (turn, after) = u16_within(rest, last + 1, slots - 1)?;
        turns.push(turn)?;
        last = turn;
        rest = after;
    }
    Ok((turns, rest))
}

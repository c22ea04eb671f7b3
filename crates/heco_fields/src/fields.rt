ghost use Rattle.std.specs.Prelude.{◌≡◌, ◌≤◌, length, true, IfOk, IfErr};
ghost use Rattle.std.specs.Int.{w8, w16, w32, w64};
ghost use Rattle.heco_fields.specs.Formats.{within, fixed, any, versioned, header, signed_byte};
ghost use Rattle.heco_fields.specs.Readings.{Gives, IsAtField, reading};

use crate::{Fault, Header};

/// The refusal of the field that begins at the first of these bytes.
pub fn broken(bytes: &[u8]) -> Fault
    ensures { result ≡ Fault.Broken (length bytes.now) }
{
    Fault::Broken {
        left: bytes.len() as u64,
    }
}

/// A byte from `low` to `high`, and the bytes after it.
#[tactic(auto, unfolding(crate::specs::Readings::reading))]
pub fn u8_within(bytes: &[u8], low: u8, high: u8) -> Result<(u8, &[u8]), Fault>
    ensures read { Gives (λ x. (x.0, x.1.now)) result (reading (within w8 low high) bytes.now) }
    ensures range { IfOk result (λ x. (low ≤ x.0) × (x.0 ≤ high)) }
    ensures field { IfErr result IsAtField }
{
    let [value, rest @ ..] = bytes else {
        return Err(broken(bytes));
    };
    if *value < low || *value > high {
        return Err(broken(bytes));
    }
    Ok((*value, rest))
}

/// A number of two bytes, the high one first, from `low` to `high`, and the bytes after it.
#[tactic(auto, unfolding(crate::specs::Readings::reading))]
pub fn u16_within(bytes: &[u8], low: u16, high: u16) -> Result<(u16, &[u8]), Fault>
    ensures read { Gives (λ x. (x.0, x.1.now)) result (reading (within w16 low high) bytes.now) }
    ensures range { IfOk result (λ x. (low ≤ x.0) × (x.0 ≤ high)) }
    ensures field { IfErr result IsAtField }
{
    if bytes.len() < 2 {
        return Err(broken(bytes));
    }
    let (front, rest) = bytes.split_at(2);
    let value = u16::from_be_bytes([front[0], front[1]]);
    if value < low || value > high {
        return Err(broken(bytes));
    }
    Ok((value, rest))
}

/// A number of four bytes, the high one first, from `low` to `high`, and the bytes after it.
#[tactic(auto, unfolding(crate::specs::Readings::reading))]
pub fn u32_within(bytes: &[u8], low: u32, high: u32) -> Result<(u32, &[u8]), Fault>
    ensures read { Gives (λ x. (x.0, x.1.now)) result (reading (within w32 low high) bytes.now) }
    ensures range { IfOk result (λ x. (low ≤ x.0) × (x.0 ≤ high)) }
    ensures field { IfErr result IsAtField }
{
    if bytes.len() < 4 {
        return Err(broken(bytes));
    }
    let (front, rest) = bytes.split_at(4);
    let value = u32::from_be_bytes([front[0], front[1], front[2], front[3]]);
    if value < low || value > high {
        return Err(broken(bytes));
    }
    Ok((value, rest))
}

/// A number of eight bytes, the high one first, from `low` to `high`, and the bytes after it.
#[tactic(auto, unfolding(crate::specs::Readings::reading))]
pub fn u64_within(bytes: &[u8], low: u64, high: u64) -> Result<(u64, &[u8]), Fault>
    ensures read { Gives (λ x. (x.0, x.1.now)) result (reading (within w64 low high) bytes.now) }
    ensures range { IfOk result (λ x. (low ≤ x.0) × (x.0 ≤ high)) }
    ensures field { IfErr result IsAtField }
{
    if bytes.len() < 8 {
        return Err(broken(bytes));
    }
    let (front, rest) = bytes.split_at(8);
    let value = u64::from_be_bytes([
        front[0], front[1], front[2], front[3], front[4], front[5], front[6], front[7],
    ]);
    if value < low || value > high {
        return Err(broken(bytes));
    }
    Ok((value, rest))
}

/// The bytes of `text`, and the bytes after them.
#[tactic(auto, unfolding(crate::specs::Readings::reading))]
pub fn fixed_at<'a>(bytes: &'a [u8], text: &[u8]) -> Result<(&'a [u8], &'a [u8]), Fault>
    ensures read { Gives (λ x. (x.0.now, x.1.now)) result (reading (fixed text.now) bytes.now) }
    ensures field { IfErr result IsAtField }
{
    if bytes.len() < text.len() {
        return Err(broken(bytes));
    }
    let (front, rest) = bytes.split_at(text.len());
    if front != text {
        return Err(broken(bytes));
    }
    Ok((front, rest))
}

/// Any number of four bytes, the high one first, and the bytes after it.
#[tactic(auto, unfolding(crate::specs::Readings::reading))]
pub fn u32_at(bytes: &[u8]) -> Result<(u32, &[u8]), Fault>
    ensures read { Gives (λ x. (x.0, x.1.now)) result (reading (any w32) bytes.now) }
    ensures field { IfErr result IsAtField }
{
    if bytes.len() < 4 {
        return Err(broken(bytes));
    }
    let (front, rest) = bytes.split_at(4);
    let value = u32::from_be_bytes([front[0], front[1], front[2], front[3]]);
    Ok((value, rest))
}

/// Any byte in two's complement, and the bytes after it.
#[tactic(auto, unfolding(crate::specs::Readings::reading))]
pub fn i8_at(bytes: &[u8]) -> Result<(i8, &[u8]), Fault>
    ensures read { Gives (λ x. (x.0, x.1.now)) result (reading (signed_byte (λ z. true)) bytes.now) }
    ensures field { IfErr result IsAtField }
{
    let [value, rest @ ..] = bytes else {
        return Err(broken(bytes));
    };
    Ok((value.cast_signed(), rest))
}

/// The magic, a version from 1 to `newest`, and the number of a preset, 1 to 5, and the bytes after them.
#[tactic(auto, using(crate::proofs::Steps::reading_then), unfolding(crate::specs::Formats::versioned, crate::specs::Readings::reading))]
pub fn versioned_at<'a>(
    bytes: &'a [u8],
    magic: &[u8],
    newest: u8,
) -> Result<(Header, &'a [u8]), Fault>
    ensures read { Gives (λ x. (x.0, x.1.now)) result (reading (versioned newest magic.now) bytes.now) }
    ensures range { IfOk result (λ x. (1 ≤ x.0.preset) × (x.0.preset ≤ 5)) }
    ensures field { IfErr result IsAtField }
{
    let (_, rest) = fixed_at(bytes, magic)?;
    let (version, rest) = u8_within(rest, 1, newest)?;
    let (preset, rest) = u8_within(rest, 1, 5)?;
    Ok((Header { version, preset }, rest))
}

/// The magic, version 1, and the number of a preset, 1 to 5, which is given back with the bytes after it.
#[tactic(auto, using(crate::proofs::Steps::reading_then), unfolding(crate::specs::Formats::header, crate::specs::Readings::reading))]
pub fn header_at<'a>(bytes: &'a [u8], magic: &[u8]) -> Result<(u8, &'a [u8]), Fault>
    ensures read { Gives (λ x. (x.0, x.1.now)) result (reading (header magic.now) bytes.now) }
    ensures range { IfOk result (λ x. (1 ≤ x.0) × (x.0 ≤ 5)) }
    ensures field { IfErr result IsAtField }
{
    let (header, rest) = versioned_at(bytes, magic, 1)?;
    Ok((header.preset, rest))
}

ghost use Rattle.std.specs.Prelude.{◌≡◌, ◌≤◌, ◌<◌, ◌+◌, ◌^◌, true};
ghost use Rattle.std.specs.Int.RustNames.{unsigned_abs};
ghost use Rattle.heco_fields.specs.Readings.{Gives, reading};
ghost use Rattle.heco_lists.specs.ListFormat.{secret_place, counted, error, sparse, words, errors};

use heco_fields::{Fault, broken, i8_at, u64_within};
use heco_nums::List;
use std::alloc::Global;

#[tactic(auto, unfolding(heco_fields::specs::Readings::reading))]
fn place_at(h: u32, used: u32, bytes: &[u8]) -> Result<(i8, &[u8]), Fault>
    ensures { Gives (λ x. (x.0, x.1.now)) result (reading (secret_place h used) bytes.now) }
{
    let (place, rest) = i8_at(bytes)?;
    let size = place.unsigned_abs();
    if size > 1 || size == 1 && used >= h {
        return Err(broken(bytes));
    }
    Ok((place, rest))
}

#[tactic(auto, unfolding(heco_fields::specs::Readings::reading))]
fn error_at(b: u32, bytes: &[u8]) -> Result<(i8, &[u8]), Fault>
    ensures { Gives (λ x. (x.0, x.1.now)) result (reading (error b 0) bytes.now) }
{
    let (error, rest) = i8_at(bytes)?;
    if u32::from(error.unsigned_abs()) > b {
        return Err(broken(bytes));
    }
    Ok((error, rest))
}

fn counted(used: u32, place: i8) -> u32
    requires { used < 2 ^ 31 }
    ensures count { result ≡ counted used place }
    ensures more { result ≤ used + 1 }
{
    if place == 0 { used } else { used + 1 }
}

/// n places of -1, 0 and 1, at most h of them not 0.
#[tactic(auto, unfolding(crate::specs::ListFormat::sparse))]
pub fn sparse_at(alloc: Global, n: u32, h: u32, bytes: &[u8]) -> Result<(List<i8>, &[u8]), Fault>
    requires { n < 2 ^ 31 }
    ensures { Gives (λ x. (x.0, x.1.now)) result (reading (sparse n h) bytes.now) }
{
    let mut places = List::new(alloc);
    let mut used = 0u32;
    let mut rest = bytes;
    for _ in 0..n {
        let (place, after) = place_at(h, used, rest)?;
        used = counted(used, place);
        places.push(place)?;
        rest = after;
    }
    Ok((places, rest))
}

/// n words below 2^58.
#[tactic(auto, unfolding(crate::specs::ListFormat::words))]
pub fn words_at(alloc: Global, n: u32, bytes: &[u8]) -> Result<(List<u64>, &[u8]), Fault>
    ensures { Gives (λ x. (x.0, x.1.now)) result (reading (words n) bytes.now) }
{
    let mut words = List::new(alloc);
    let mut rest = bytes;
    for _ in 0..n {
        let (word, after) = u64_within(rest, 0, (1 << 58) - 1)?;
        words.push(word)?;
        rest = after;
    }
    Ok((words, rest))
}

/// n errors from -b to b.
#[tactic(auto, unfolding(crate::specs::ListFormat::errors))]
pub fn errors_at(alloc: Global, n: u32, b: u32, bytes: &[u8]) -> Result<(List<i8>, &[u8]), Fault>
    ensures { Gives (λ x. (x.0, x.1.now)) result (reading (errors n b) bytes.now) }
{
    let mut errors = List::new(alloc);
    let mut rest = bytes;
    for _ in 0..n {
        let (error, after) = error_at(b, rest)?;
        errors.push(error)?;
        rest = after;
    }
    Ok((errors, rest))
}

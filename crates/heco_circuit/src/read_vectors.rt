ghost use Rattle.std.specs.Prelude.{◌≡◌, ◌≤◌, length, IfOk};
ghost use Rattle.heco_fields.specs.Formats.{many};
ghost use Rattle.heco_fields.specs.Readings.{Gives, reading};
ghost use Rattle.heco_nums.specs.Runs.{stays};
ghost use Rattle.heco_nums.specs.Presets.{modulus_of, slots_of};
ghost use Rattle.heco_circuit.specs.VectorFormat.{vector, some_vectors, vectors};

use heco_fields::{Fault, u32_within};
use heco_nums::{List, Preset};
use std::alloc::Global;

/// So many numbers below t.
#[tactic(auto, unfolding(crate::specs::VectorFormat::vector))]
fn vector_at(alloc: Global, t: u32, slots: u32, bytes: &[u8]) -> Result<(List<u32>, &[u8]), Fault>
    requires { 1 ≤ t }
    ensures { Gives (λ x. (x.0, x.1.now)) result (reading (vector t slots 0) bytes.now) }
{
    let mut vector = List::new(alloc);
    let mut rest = bytes;
    for _ in 0..slots {
        let (entry, after) = u32_within(rest, 0, t - 1)?;
        vector.push(entry)?;
        rest = after;
    }
    Ok((vector, rest))
}

fn each_vector_at(
    alloc: Global,
    t: u32,
    slots: u32,
    count: u32,
    bytes: &[u8],
) -> Result<(List<List<u32>>, &[u8]), Fault>
    requires { 1 ≤ t }
    ensures vectors { Gives (λ x. (x.0, x.1.now)) result (reading (many (vector t slots) stays count 0) bytes.now) }
    ensures count { IfOk result (λ x. length x.0 ≡ count) }
{
    let mut vectors = List::new(alloc);
    let mut rest = bytes;
    for _ in 0..count {
        let (vector, after) = vector_at(alloc, t, slots, rest)?;
        vectors.push(vector)?;
        rest = after;
    }
    Ok((vectors, rest))
}

#[tactic(auto, using(heco_fields::proofs::Steps::reading_then), unfolding(crate::specs::VectorFormat::some_vectors))]
fn some_vectors_at<'a>(
    alloc: Global,
    preset: &Preset,
    bytes: &'a [u8],
) -> Result<(List<List<u32>>, &'a [u8]), Fault>
    ensures vectors { Gives (λ x. (x.0, x.1.now)) result (reading (some_vectors preset.now.id) bytes.now) }
    ensures few { IfOk result (λ x. length x.0 ≤ 256) }
{
    let (count, rest) = u32_within(bytes, 1, 256)?;
    each_vector_at(alloc, preset.t, preset.slots, count, rest)
}

/// The vectors of a file of this version.
#[tactic(auto, unfolding(crate::specs::VectorFormat::vectors, heco_fields::specs::Readings::reading))]
pub fn vectors_at<'a>(
    alloc: Global,
    version: u8,
    preset: &Preset,
    bytes: &'a [u8],
) -> Result<(List<List<u32>>, &'a [u8]), Fault>
    ensures vectors { Gives (λ x. (x.0, x.1.now)) result (reading (vectors version preset.now.id) bytes.now) }
    ensures few { IfOk result (λ x. length x.0 ≤ 256) }
{
    if version == 3 {
        some_vectors_at(alloc, preset, bytes)
    } else {
        Ok((List::new(alloc), bytes))
    }
}

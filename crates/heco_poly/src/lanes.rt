ghost use Rattle.std.specs.Prelude.{◌≡◌, ◌+◌, ◌*◌, ◌%◌, ◌<◌, ◌≤◌, ◌^◌, ℕ, length, slice_index};
ghost use Rattle.std.specs.Simd.Lanes.{put_chunk};

use std::simd::prelude::*;

/// How many words go at once.
pub const LANES: usize = 4;

/// Each lane of x and c times that of y, in words that wrap.
#[inline(always)]
fn gained(x: u64x4, c: u64, y: u64x4) -> u64x4
    ensures { (j : ℕ) → j < 4 → slice_index result j ≡ (slice_index x j + c * slice_index y j) % 2 ^ 64 }
{
    x + u64x4::splat(c) * y
}

/// Four places from i on gain c times those of b, in words that wrap; the others stay.
#[inline(always)]
pub fn add_four(out: &mut [u64], b: &[u64], c: u64, i: usize)
    requires same { length b.now ≡ length out.old }
    requires room { i + 4 ≤ length out.old }
    ensures lanes { (j : ℕ) → j < 4 → slice_index out.new (i + j) ≡ (slice_index out.old (i + j) + c * slice_index b.now (i + j)) % 2 ^ 64 }
    ensures before { (k : ℕ) → k < i → slice_index out.new k ≡ slice_index out.old k }
    ensures after { (k : ℕ) → i + 4 ≤ k → slice_index out.new k ≡ slice_index out.old k }
{
    let sums = gained(u64x4::from_slice(&out[i..]), c, u64x4::from_slice(&b[i..]));
    sums.copy_to_slice(&mut out[i..]);
}

/// Places i to i + 3 become the lanes of v.
#[inline(always)]
pub fn put_four(out: &mut [u64], i: usize, v: u64x4)
    requires { i + 4 ≤ length out.old }
    ensures { out.new ≡ put_chunk i out.old v }
{
    v.copy_to_slice(&mut out[i..]);
}

ghost use Rattle.std.specs.Prelude.{◌≡◌, ◌+◌, ◌≤◌, ◌<◌, ◌^◌, IfOk, OnOk, length};
ghost use Rattle.std.specs.List.{fold};
ghost use Rattle.heco_nums.specs.MaterialBounds.{IsSparse};
ghost use Rattle.heco_draw.specs.Words.{ahead, sparse, word, placed};
ghost use Rattle.heco_nums.specs.Listed.{listed};

use crate::draw::next;
use heco_nums::{List, Memory};
use rand_chacha::ChaCha20Rng;
use std::alloc::Global;

/// Chooses a place by the next word.
fn place(rng: &mut ChaCha20Rng, secret: &mut [i8])
    requires room { 0 < length secret.old }
    requires short { length secret.old < 2 ^ 32 }
    requires rng { rng.old.word_pos + 1 < 2 ^ 68 }
    ensures placed { secret.new ≡ placed (length secret.old) secret.old (word rng.old 0) }
    ensures rng { rng.new ≡ ahead rng.old 1 }
{
    let x = next(rng);
    secret[x as usize % secret.len()] = if x < 1 << 31 { 1 } else { -1 };
}

// Chooses h places, one after the other.
fn place_all(rng: &mut ChaCha20Rng, secret: &mut [i8], h: u32)
    requires room { 0 < length secret.old }
    requires short { length secret.old < 2 ^ 32 }
    requires rng { rng.old.word_pos + h < 2 ^ 68 }
    ensures placed { secret.new ≡ fold (placed (length secret.old)) secret.old (listed h (word rng.old)) }
    ensures rng { rng.new ≡ ahead rng.old h }
{
    for i in 0..h {
        place(rng, secret);
    }
}

/// n places of -1, 0 and 1, of which h words choose at most h that are not 0.
pub fn draw_sparse(alloc: Global, rng: &mut ChaCha20Rng, n: u32, h: u32) -> Result<List<i8>, Memory>
    requires n { 0 < n }
    requires rng { rng.old.word_pos + h < 2 ^ 68 }
    ensures places { IfOk result (λ s. s ≡ sparse rng.old n h) }
    ensures within { IfOk result (IsSparse n h) }
    ensures rng { OnOk result (rng.new ≡ ahead rng.old h) }
{
    let secret = chosen(alloc, rng, n, h)?;
    Ok(secret)
}

#[tactic(auto, unfolding(crate::specs::Words::sparse))]
fn chosen(alloc: Global, rng: &mut ChaCha20Rng, n: u32, h: u32) -> Result<List<i8>, Memory>
    requires n { 0 < n }
    requires rng { rng.old.word_pos + h < 2 ^ 68 }
    ensures places { IfOk result (λ s. s ≡ sparse rng.old n h) }
    ensures rng { OnOk result (rng.new ≡ ahead rng.old h) }
{
    let mut secret = vec![in alloc; 0i8; n as usize]?;
    place_all(rng, secret.as_mut_slice(), h);
    Ok(List::from_vec(secret))
}

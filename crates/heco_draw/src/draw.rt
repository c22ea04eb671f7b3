ghost use Rattle.std.specs.Prelude.{◌≡◌, ◌+◌, ◌*◌, ◌%◌, ◌^◌, ◌<◌, ◌≤◌, All, IfOk, OnOk, length};
ghost use Rattle.std.specs.Int.RustNames.{unsigned_abs};
ghost use Rattle.heco_nums.specs.MaterialBounds.{AreErrors, AreWords};
ghost use Rattle.heco_draw.specs.Words.{start, ahead, word, long_word, long_words, error, errors, values};

use heco_nums::{List, Memory, Preset};
use rand_chacha::ChaCha20Rng;
use rand_core::SeedableRng;
use rand_core::utils::NextWord;
use std::alloc::Global;

/// The generator at the start of a stream of a seed.
#[tactic(auto, unfolding(crate::specs::Words::seed_bytes, crate::specs::Words::start))]
pub fn start(seed: u64, stream: u64) -> ChaCha20Rng
    ensures { result ≡ start seed stream }
{
    let mut key = [0u8; 32];
    key[24..32].copy_from_slice(&seed.to_be_bytes());
    let mut rng = ChaCha20Rng::from_seed(key);
    rng.set_stream(stream);
    rng
}

/// The next word.
#[tactic(auto, unfolding(crate::specs::Words::word))]
pub fn next(rng: &mut ChaCha20Rng) -> u32
    requires { rng.old.word_pos + 1 < 2 ^ 68 }
    ensures word { result ≡ word rng.old 0 }
    ensures rng { rng.new ≡ ahead rng.old 1 }
{
    rng.next_word()
}

fn long_word(rng: &mut ChaCha20Rng) -> u64
    requires { rng.old.word_pos + 2 < 2 ^ 68 }
    ensures word { result ≡ long_word (word rng.old 0) (word rng.old 1) }
    ensures small { result < 2 ^ 58 }
    ensures rng { rng.new ≡ ahead rng.old 2 }
{
    let high = next(rng);
    let low = next(rng);
    u64::from(high % (1 << 26)) * (1 << 32) + u64::from(low)
}

/// n words below 2^58, of two words each.
pub fn draw_words(alloc: Global, rng: &mut ChaCha20Rng, n: u32) -> Result<List<u64>, Memory>
    requires { rng.old.word_pos + 2 * n < 2 ^ 68 }
    ensures words { IfOk result (λ a. a ≡ long_words rng.old n) }
    ensures within { IfOk result (AreWords n) }
    ensures rng { OnOk result (rng.new ≡ ahead rng.old (2 * n)) }
{
    let mut words = List::new(alloc);
    for i in 0..n {
        words.push(long_word(rng))?;
    }
    Ok(words)
}

fn error(rng: &mut ChaCha20Rng, b: u32) -> i8
    requires b { b ≤ 4 }
    requires rng { rng.old.word_pos + 1 < 2 ^ 68 }
    ensures value { result ≡ error b (word rng.old 0) }
    ensures small { unsigned_abs result ≤ b }
    ensures rng { rng.new ≡ ahead rng.old 1 }
{
    let x = next(rng) % (2 * b + 1);
    (x as i32 - b as i32) as i8
}

/// n errors from -b to b, of one word each.
pub fn draw_errors(alloc: Global, rng: &mut ChaCha20Rng, n: u32, b: u32) -> Result<List<i8>, Memory>
    requires b { b ≤ 4 }
    requires rng { rng.old.word_pos + n < 2 ^ 68 }
    ensures errors { IfOk result (λ e. e ≡ errors rng.old n b) }
    ensures within { IfOk result (AreErrors n b) }
    ensures rng { OnOk result (rng.new ≡ ahead rng.old n) }
{
    let mut errors = List::new(alloc);
    for i in 0..n {
        errors.push(error(rng, b))?;
    }
    Ok(errors)
}

/// Values below t: the first words of stream 3 of the seed modulo t, at most 1,024 of them.
pub fn draw_values(alloc: Global, p: &Preset, seed: u64, count: u32) -> Result<List<u32>, Memory>
    requires { count ≤ 1024 }
    ensures words { IfOk result (λ v. v ≡ values (start seed 3) p.now.t count) }
    ensures below { IfOk result (All (λ x. x < p.now.t)) }
{
    let mut rng = start(seed, 3);
    let mut values = List::new(alloc);
    for i in 0..count {
        values.push(next(&mut rng) % p.t)?;
    }
    Ok(values)
}

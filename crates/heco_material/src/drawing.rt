ghost use Rattle.std.specs.Prelude.{◌≡◌, ◌+◌, ◌*◌, ◌<◌, ◌≤◌, ◌^◌, All, IfOk, OnOk, length};
ghost use Rattle.heco_draw.specs.Words.{ahead, start};
ghost use Rattle.heco_material.specs.KeyLists.{lists_of, key_lists, key_count, IsSwitchRow, IsSwitch, IsKeyMaterial, IsEncRow, IsEncMaterial};
ghost use Rattle.heco_material.specs.Drawn.{drawn_row, drawn_switch, drawn_switches, drawn_keys, drawn_encryption, drawn_encryptions};

use crate::file_length::key_count;
use crate::read_rows::Lists;
use crate::words::{EncRow, EncWords, KeyWords, SwitchRow, SwitchWords};
use heco_draw::{draw_errors, draw_sparse, draw_words, start};
use heco_nums::{KeyNeeds, List, Memory, Preset};
use rand_chacha::ChaCha20Rng;
use std::alloc::Global;

#[tactic(auto, using(heco_nums::proofs::PresetFacts::facts), unfolding(crate::specs::Drawn::drawn_row))]
fn draw_row(alloc: Global, rng: &mut ChaCha20Rng, p: &Preset) -> Result<SwitchRow, Memory>
    requires { rng.old.word_pos + 3 * p.now.n < 2 ^ 68 }
    ensures row { IfOk result (λ r. r ≡ drawn_row rng.old p.now.n p.now.b) }
    ensures within { IfOk result (IsSwitchRow p.now.n p.now.b) }
    ensures rng { OnOk result (rng.new ≡ ahead rng.old (3 * p.now.n)) }
{
    let a = draw_words(alloc, rng, p.n)?;
    let e = draw_errors(alloc, rng, p.n, p.b)?;
    Ok(SwitchRow { a, e })
}

fn draw_rows(alloc: Global, rng: &mut ChaCha20Rng, p: &Preset) -> Result<SwitchWords, Memory>
    requires { rng.old.word_pos + 87 * p.now.n < 2 ^ 68 }
    ensures switch { IfOk result (λ w. w ≡ drawn_switch rng.old p.now.n p.now.b) }
    ensures within { IfOk result (IsSwitch p.now.n p.now.b) }
    ensures rng { OnOk result (rng.new ≡ ahead rng.old (87 * p.now.n)) }
{
    let mut rows = List::new(alloc);
    for i in 0..29u32 {
        rows.push(draw_row(alloc, rng, p)?)?;
    }
    Ok(SwitchWords { rows })
}

fn draw_switches(
    alloc: Global,
    rng: &mut ChaCha20Rng,
    p: &Preset,
    count: usize,
) -> Result<List<SwitchWords>, Memory>
    requires { rng.old.word_pos + 87 * p.now.n * count < 2 ^ 68 }
    ensures switches { IfOk result (λ ws. ws ≡ drawn_switches rng.old p.now.n p.now.b count) }
    ensures count { IfOk result (λ ws. length ws ≡ count) }
    ensures within { IfOk result (All (IsSwitch p.now.n p.now.b)) }
{
    let mut switches = List::new(alloc);
    for i in 0..count {
        switches.push(draw_rows(alloc, rng, p)?)?;
    }
    Ok(switches)
}

fn draw_lists(
    alloc: Global,
    rng: &mut ChaCha20Rng,
    p: &Preset,
    count: usize,
) -> Result<Lists, Memory>
    requires few { count ≤ 65537 }
    requires rng { rng.old.word_pos ≡ 0 }
    ensures lists { IfOk result (λ l. key_lists l.s l.a l.e l.switch ≡ drawn_keys rng.old p.now.n p.now.h p.now.b count) }
    ensures within { IfOk result (λ l. IsKeyMaterial p.now.n p.now.h p.now.b count (key_lists l.s l.a l.e l.switch)) }
{
    let s = draw_sparse(alloc, rng, p.n, p.h)?;
    let a = draw_words(alloc, rng, p.n)?;
    let e = draw_errors(alloc, rng, p.n, p.b)?;
    let switch = draw_switches(alloc, rng, p, count)?;
    Ok(Lists { s, a, e, switch })
}

/// The key material of a seed, for the switch keys of the needs: stream 1 from its first word on, in the order of the
/// file. It is within bounds for every seed.
pub fn draw_keys(alloc: Global, p: &Preset, needs: &KeyNeeds, seed: u64) -> Result<KeyWords, Memory>
    ensures kept { IfOk result (λ k. (k.preset ≡ p.now) × (k.needs.relin ≡ needs.now.relin) × (k.needs.turns ≡ needs.now.turns)) }
    ensures words { IfOk result (λ k. lists_of k ≡ drawn_keys (start seed 1) p.now.n p.now.h p.now.b (key_count needs.now)) }
    ensures within { IfOk result (λ k. IsKeyMaterial p.now.n p.now.h p.now.b (key_count needs.now) (lists_of k)) }
{
    let count = key_count(needs);
    let mut rng = start(seed, 1);
    let Lists { s, a, e, switch } = draw_lists(alloc, &mut rng, p, count)?;
    let needs = needs.copy(alloc)?;
    Ok(KeyWords {
        preset: *p,
        needs,
        s,
        a,
        e,
        switch,
    })
}

#[tactic(auto, using(heco_nums::proofs::PresetFacts::facts), unfolding(crate::specs::Drawn::drawn_encryption))]
fn draw_encryption(alloc: Global, rng: &mut ChaCha20Rng, p: &Preset) -> Result<EncRow, Memory>
    requires { rng.old.word_pos + (p.now.h + 2 * p.now.n) < 2 ^ 68 }
    ensures row { IfOk result (λ r. r ≡ drawn_encryption rng.old p.now.n p.now.h p.now.b) }
    ensures within { IfOk result (IsEncRow p.now.n p.now.h p.now.b) }
    ensures rng { OnOk result (rng.new ≡ ahead rng.old (p.now.h + 2 * p.now.n)) }
{
    let u = draw_sparse(alloc, rng, p.n, p.h)?;
    let e1 = draw_errors(alloc, rng, p.n, p.b)?;
    let e2 = draw_errors(alloc, rng, p.n, p.b)?;
    Ok(EncRow { u, e1, e2 })
}

/// The encryption material of a seed, for so many inputs: stream 2 from its first word on, in the order of the file.
/// It is within bounds for every seed.
pub fn draw_enc(alloc: Global, p: &Preset, count: u32, seed: u64) -> Result<EncWords, Memory>
    ensures kept { IfOk result (λ w. w.preset ≡ p.now) }
    ensures words { IfOk result (λ w. w.rows ≡ drawn_encryptions (start seed 2) p.now.n p.now.h p.now.b count) }
    ensures within { IfOk result (λ w. IsEncMaterial p.now.n p.now.h p.now.b count w.rows) }
{
    let mut rng = start(seed, 2);
    let mut rows = List::new(alloc);
    for i in 0..count {
        rows.push(draw_encryption(alloc, &mut rng, p)?)?;
    }
    Ok(EncWords { preset: *p, rows })
}

ghost use Rattle.std.specs.Prelude.{◌≡◌, ◌<◌, All, IfOk, length, map};
ghost use Rattle.heco_nums.specs.Needs.{IsRising};
ghost use Rattle.heco_fields.specs.Formats.{many};
ghost use Rattle.heco_fields.specs.Readings.{Gives, reading};
ghost use Rattle.heco_nums.specs.Runs.{stays};
ghost use Rattle.heco_scheme.specs.Keys.{AreRows};
ghost use Rattle.heco_keys.specs.Amounts.{AreAmounts};
ghost use Rattle.heco_key_files.specs.KeyFiles.{evaluation, lists_of, switch_key, turns};

use crate::read_switch::{poly_at, switches_at, turns_at};
use heco_fields::{Fault, u8_within, u16_within};
use heco_keys::{Eval, SwitchKey};
use heco_nums::{KeyNeeds, List, Preset};
use std::alloc::Global;

#[tactic(auto, using(heco_fields::proofs::Steps::reading_then), unfolding(crate::specs::KeyFiles::turns))]
fn counted_turns_at(alloc: Global, slots: u16, bytes: &[u8]) -> Result<(List<u16>, &[u8]), Fault>
    requires { 0 < slots }
    ensures { Gives (λ x. (x.0, x.1.now)) result (reading (turns slots) bytes.now) }
{
    let (count, rest) = u16_within(bytes, 0, slots - 1)?;
    turns_at(alloc, slots, count, rest)
}

fn rising_turns_at(alloc: Global, slots: u16, bytes: &[u8]) -> Result<(List<u16>, &[u8]), Fault>
    requires { 0 < slots }
    ensures read { Gives (λ x. (x.0, x.1.now)) result (reading (turns slots) bytes.now) }
    ensures rising { IfOk result (λ x. IsRising x.0) }
    ensures amounts { IfOk result (λ x. AreAmounts slots x.0) }
    ensures few { IfOk result (λ x. length x.0 < slots) }
{
    counted_turns_at(alloc, slots, bytes)
}

fn keys_at<'a>(
    alloc: Global,
    p: &Preset,
    count: u32,
    bytes: &'a [u8],
) -> Result<(List<SwitchKey>, &'a [u8]), Fault>
    ensures read { Gives (λ x. (map (λ k. k.rows) x.0, x.1.now)) result (reading (many (switch_key p.now.n) stays count 0) bytes.now) }
    ensures count { IfOk result (λ x. length x.0 ≡ count) }
    ensures pairs { IfOk result (λ x. All (λ k. AreRows p.now.n k.rows) x.0) }
{
    switches_at(alloc, p, count, bytes)
}

/// The parts of an evaluation key behind the header.
#[tactic(auto, using(heco_fields::proofs::Steps::reading_then, heco_nums::proofs::PresetFacts::facts), unfolding(crate::specs::KeyFiles::evaluation, heco_fields::specs::Readings::reading))]
pub fn eval_at<'a>(alloc: Global, p: &Preset, bytes: &'a [u8]) -> Result<(Eval, &'a [u8]), Fault>
    ensures read { Gives (λ x. (lists_of x.0, x.1.now)) result (reading (evaluation p.now.n p.now.slots) bytes.now) }
    ensures preset { IfOk result (λ x. x.0.preset ≡ p.now) }
{
    let (relin, rest) = u8_within(bytes, 0, 1)?;
    let (turns, rest) = rising_turns_at(alloc, p.slots as u16, rest)?;
    let (p0, rest) = poly_at(alloc, p, rest)?;
    let (p1, rest) = poly_at(alloc, p, rest)?;
    let count = u32::from(relin) + turns.len() as u32;
    let (switch, rest) = keys_at(alloc, p, count, rest)?;
    let needs = KeyNeeds {
        relin: relin == 1,
        turns,
    };
    Ok((Eval::of(p, needs, (p0, p1), switch), rest))
}

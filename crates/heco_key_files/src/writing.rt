ghost use Rattle.std.specs.Prelude.{◌≡◌, ◌++◌, OnOk, IfOk, map, codes};
ghost use Rattle.std.specs.List.{flat_map};
ghost use Rattle.std.specs.Int.{w8, w16, to_be_bytes};
ghost use Rattle.heco_lists.specs.ListFormat.{words_text};
ghost use Rattle.heco_key_files.specs.Judging.{file_as};
ghost use Rattle.heco_key_files.specs.KeyFiles.{AreEvalLists, EvalLists, bit, eval_text, evaluation, lists_of, pair_text, switch_text, turns_text};

use heco_fields::{put_header, put_u16};
use heco_keys::{Eval, SwitchKey};
use heco_lists::put_words;
use heco_nums::{Bytes, Memory};
use heco_poly::Poly;
use std::alloc::Global;

/// Puts the n words of a polynomial.
pub fn put_poly(out: &mut Bytes, poly: &Poly) -> Result<(), Memory>
    ensures { OnOk result (out.new ≡ out.old ++ words_text poly.now) }
{
    put_words(out, poly.as_slice())
}

fn put_turns(out: &mut Bytes, turns: &[u16]) -> Result<(), Memory>
    ensures { OnOk result (out.new ≡ out.old ++ turns_text turns.now) }
{
    put_u16(out, turns.len())?;
    put_amounts(out, turns)
}

fn put_amounts(out: &mut Bytes, turns: &[u16]) -> Result<(), Memory>
    ensures { OnOk result (out.new ≡ out.old ++ flat_map (to_be_bytes w16) turns.now) }
{
    for turn in turns {
        put_u16(out, usize::from(*turn))?;
    }
    Ok(())
}

fn put_pair(out: &mut Bytes, first: &Poly, second: &Poly) -> Result<(), Memory>
    ensures { OnOk result (out.new ≡ out.old ++ pair_text (first.now, second.now)) }
{
    put_poly(out, first)?;
    put_poly(out, second)
}

#[tactic(auto, unfolding(crate::specs::KeyFiles::switch_text))]
fn put_switch(out: &mut Bytes, key: &SwitchKey) -> Result<(), Memory>
    ensures { OnOk result (out.new ≡ out.old ++ switch_text key.now.rows) }
{
    for (first, second) in key.pairs() {
        put_pair(out, first, second)?;
    }
    Ok(())
}

fn put_switches(out: &mut Bytes, keys: &[SwitchKey]) -> Result<(), Memory>
    ensures { OnOk result (out.new ≡ out.old ++ flat_map switch_text (map (λ k. k.rows) keys.now)) }
{
    for key in keys {
        put_switch(out, key)?;
    }
    Ok(())
}

#[tactic(auto, unfolding(crate::specs::KeyFiles::eval_text))]
fn text(alloc: Global, e: &Eval) -> Result<Bytes, Memory>
    ensures { IfOk result (λ bytes. bytes ≡ eval_text e.now.preset.id (lists_of e.now)) }
{
    let mut out = Bytes::new(alloc);
    put_header(&mut out, b"HEVA", e.preset().id)?;
    put_needs(&mut out, e)?;
    put_poly(&mut out, e.p0())?;
    put_poly(&mut out, e.p1())?;
    put_switches(&mut out, e.switch_keys())?;
    Ok(out)
}

fn put_needs(out: &mut Bytes, e: &Eval) -> Result<(), Memory>
    ensures { OnOk result (out.new ≡ out.old ++ (to_be_bytes w8 (bit e.now.needs.relin) ++ turns_text e.now.needs.turns)) }
{
    let needs = e.needs();
    out.push(u8::from(needs.relin))?;
    put_turns(out, needs.turns.as_slice())
}

/// The file of the evaluation key. Where its polynomials and turns are those of its preset, the reader reads it back
/// from there, and no other evaluation key of the preset has this file.
pub fn write_eval(alloc: Global, e: &Eval) -> Result<Bytes, Memory>
    ensures text { IfOk result (λ bytes. bytes ≡ eval_text e.now.preset.id (lists_of e.now)) }
    ensures back { let p = e.now.preset in AreEvalLists p.n p.slots (lists_of e.now) → IfOk result (λ bytes. file_as (codes "HEVA") p.id (evaluation p.n p.slots) bytes ≡ Ok (lists_of e.now)) }
    ensures own { let p = e.now.preset in (other : EvalLists) → AreEvalLists p.n p.slots (lists_of e.now) → AreEvalLists p.n p.slots other
        → IfOk result (λ bytes. bytes ≡ eval_text p.id other → lists_of e.now ≡ other) }
{
    text(alloc, e)
}

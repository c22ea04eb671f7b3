ghost use Rattle.std.specs.Prelude.{◌≡◌, ◌≢◌, ℕ, [], IfOk, IfErr, codes};
ghost use Rattle.heco_fields.specs.Formats.{BreaksAt};
ghost use Rattle.heco_lists.specs.declared.error.FileErr.TheVariants.{Malformed, WrongPreset};
ghost use Rattle.heco_key_files.specs.Judging.{Answers, HasCause, NamesNoOther, NamesPreset, body_as, file_as, whole};
ghost use Rattle.heco_key_files.specs.KeyFiles.{AreEvalLists, EvalLists, eval_text, evaluation, lists_of};

use crate::header::{behind_header, broken_at};
use crate::read_key::eval_at;
use heco_fields::Fault;
use heco_keys::Eval;
use heco_lists::FileErr;
use heco_nums::Preset;
use std::alloc::Global;

#[tactic(auto, unfolding(crate::specs::Judging::body_as))]
fn body(alloc: Global, p: &Preset, bytes: &[u8], rest: &[u8]) -> Result<Eval, FileErr>
    ensures exact { Answers lists_of result (body_as (evaluation p.now.n p.now.slots) bytes.now rest.now) }
    ensures kept { IfOk result (λ e. e.preset ≡ p.now) }
{
    match eval_at(alloc, p, rest) {
        Ok((key, beyond)) => {
            if beyond.len() > 0 {
                return Err(broken_at(bytes, beyond.len() as u64));
            }
            Ok(key)
        }
        Err(Fault::Broken { left }) => Err(broken_at(bytes, left)),
        Err(Fault::Memory) => Err(FileErr::Memory),
    }
}

#[tactic(auto, unfolding(crate::specs::Judging::file_as))]
fn file(alloc: Global, p: &Preset, bytes: &[u8]) -> Result<Eval, FileErr>
    ensures exact { Answers lists_of result (file_as (codes "HEVA") p.now.id (evaluation p.now.n p.now.slots) bytes.now) }
    ensures kept { IfOk result (λ e. e.preset ≡ p.now) }
{
    let rest = behind_header(p, b"HEVA", bytes)?;
    body(alloc, p, bytes, rest)
}

/// The evaluation key that the file holds, judged by itself and the preset: a header, whether it relinearises, its
/// turns, the public key, and for each need 29 pairs of polynomials of n words. A whole header of another preset is
/// `WrongPreset`; otherwise `Malformed` has the first broken field.
pub fn read_eval(alloc: Global, p: &Preset, bytes: &[u8]) -> Result<Eval, FileErr>
    ensures kept { IfOk result (λ e. e.preset ≡ p.now) }
    ensures spelled { IfOk result (λ e. AreEvalLists p.now.n p.now.slots (lists_of e) × (bytes.now ≡ eval_text p.now.id (lists_of e))) }
    ensures only { (e : EvalLists) → AreEvalLists p.now.n p.now.slots e → bytes.now ≡ eval_text p.now.id e → Answers lists_of result (Ok e) }
    ensures cause { IfErr result (HasCause (codes "HEVA") p.now.id (evaluation p.now.n p.now.slots) bytes.now) }
    ensures malformed { (at : ℕ) → BreaksAt (whole (codes "HEVA") (evaluation p.now.n p.now.slots)) bytes.now [] at → NamesNoOther (codes "HEVA") p.now.id bytes.now
        → Answers lists_of result (Err (Malformed at)) }
    ensures wrong { (found : ℕ) → found ≢ p.now.id → NamesPreset (codes "HEVA") found bytes.now → Answers lists_of result (Err (WrongPreset p.now.id found)) }
{
    file(alloc, p, bytes)
}

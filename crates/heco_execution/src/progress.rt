ghost use Rattle.std.specs.Prelude.{◌≡◌, ◌+◌, IfOk, IfErr, Ok};
ghost use Rattle.heco_execution.specs.Outcomes.{Refuses};
ghost use Rattle.heco_execution.specs.Steps.{count};

use crate::EvalErr;
use heco_lex::{Place, Rule};

/// The steps counted so far, and what the secrets stand in.
#[derive(Debug, Drop)]
pub struct Progress<S> {
    pub steps: u32,
    pub store: S,
}

fn too_large(at: Place) -> EvalErr
    ensures { result ≡ EvalErr.At Rule.TooLarge at }
{
    EvalErr::At {
        rule: Rule::TooLarge,
        at,
    }
}

/// Counts so many steps at a place.
pub fn count<S>(p: &mut Progress<S>, more: u32, at: Place) -> Result<(), EvalErr>
    ensures ok { IfOk result (λ _. count more at p.old ≡ Ok (tt, p.new)) }
    ensures err { IfErr result (λ e. Refuses e (count more at p.old)) }
{
    let total = u64::from(p.steps) + u64::from(more);
    if total > 1 << 18 {
        return Err(too_large(at));
    }
    p.steps = total as u32;
    Ok(())
}

/// Counts the steps of a declaration with a length.
pub fn count_list<S>(p: &mut Progress<S>, len: u64, at: Place) -> Result<(), EvalErr>
    ensures ok { IfOk result (λ _. count (1 + len) at p.old ≡ Ok (tt, p.new)) }
    ensures err { IfErr result (λ e. Refuses e (count (1 + len) at p.old)) }
{
    if len > 1 << 18 {
        return Err(too_large(at));
    }
    count(p, 1 + len as u32, at)
}

ghost use Rattle.std.specs.Prelude.{◌≡◌, ◌-ℤ◌, map, Some, None, IfOk, IfErr, Ok};
ghost use Rattle.heco_execution.specs.Outcomes.{Refuses};
ghost use Rattle.heco_execution.specs.Evaluation.{calls_of};
ghost use Rattle.heco_execution.specs.Execution.{holds, within, looped, decided, at_least_zero, bound, turn, turns, assigned, run, run_all};

use crate::assignment::{combined, initial, target_index, zeros};
use crate::calls::only;
use crate::definitions::Definitions;
use crate::expression::{evaluate, in_turn};
use crate::names::{Names, element};
use crate::progress::{count, count_list};
use crate::{EvalErr, Progress, Secrets, Value};
use heco_lex::Place;
use heco_syntax::{Expr, Ident, Num, SetOp, Stmt};
use std::alloc::Global;

fn bound<V: Copy>(v: Value<V>) -> i64
    ensures { result ≡ bound v }
{
    match v {
        Value::Public(n) => n,
        Value::Secret(_) => 0,
    }
}

fn holds<V: Copy>(v: Value<V>) -> bool
    ensures { result ≡ holds v }
{
    match v {
        Value::Public(n) => n != 0,
        Value::Secret(_) => false,
    }
}

#[tactic(auto, unfolding(crate::specs::Execution::assigned))]
fn assign<S: Secrets>(
    alloc: Global,
    m: &S,
    defs: &Definitions,
    names: &mut Names<S::Value>,
    p: &mut Progress<S::Store>,
    name: &Ident,
    index: &Option<Expr>,
    op: SetOp,
    op_at: Place,
    value: &Expr,
) -> Result<(), EvalErr>
    ensures ok { IfOk result (λ _. assigned (S.ops m.now) (calls_of (S.ops m.now) defs.now) name.now index.now op op_at value.now names.old p.old ≡ Ok (names.new, p.new)) }
    ensures err { IfErr result (λ e. Refuses e (assigned (S.ops m.now) (calls_of (S.ops m.now) defs.now) name.now index.now op op_at value.now names.old p.old)) }
{
    count(p, 1, name.at)?;
    let i = target_index(alloc, m, defs, names, p, index)?;
    let target = element(names, name, i)?;
    let new_value = evaluate(alloc, m, defs, names, p, value)?;
    let u = combined(m, op, op_at, target.value, new_value, p)?;
    names.replace(alloc, target, u);
    Ok(())
}

/// Runs a statement.
#[cycle(run)]
pub fn run<S: Secrets>(
    alloc: Global,
    m: &S,
    defs: &Definitions,
    names: &mut Names<S::Value>,
    p: &mut Progress<S::Store>,
    s: &Stmt,
) -> Result<(), EvalErr>
    ensures ok { IfOk result (λ _. run (S.ops m.now) (calls_of (S.ops m.now) defs.now) s.now names.old p.old ≡ Ok (names.new, p.new)) }
    ensures err { IfErr result (λ e. Refuses e (run (S.ops m.now) (calls_of (S.ops m.now) defs.now) s.now names.old p.old)) }
{
    match s {
        Stmt::IntOne { at, name, value } => {
            count(p, 1, *at)?;
            let v = evaluate(alloc, m, defs, names, p, value)?;
            names.declare(alloc, name.text.as_slice(), only(alloc, v)?)?;
            Ok(())
        }
        Stmt::IntMany {
            at,
            name,
            len,
            values: list,
        } => {
            count_list(p, len.value, *at)?;
            let list = in_turn(alloc, m, defs, names, p, list.as_slice())?;
            names.declare(alloc, name.text.as_slice(), list)?;
            Ok(())
        }
        Stmt::SecretOne { at, name, value } => {
            count(p, 1, *at)?;
            let v = initial(alloc, m, defs, names, p, value)?;
            names.declare(alloc, name.text.as_slice(), only(alloc, v)?)?;
            Ok(())
        }
        Stmt::SecretMany { at, name, len } => {
            count_list(p, len.value, *at)?;
            let list = zeros(alloc, m, p, len.value)?;
            names.declare(alloc, name.text.as_slice(), list)?;
            Ok(())
        }
        Stmt::Set {
            name,
            index,
            op,
            op_at,
            value,
        } => {
            assign(alloc, m, defs, names, p, name, index, *op, *op_at, value)?;
            Ok(())
        }
        Stmt::Loop {
            at,
            name,
            low,
            high,
            body,
        } => {
            run_loop(
                alloc,
                m,
                defs,
                names,
                p,
                *at,
                name.text.as_slice(),
                low,
                high,
                body.as_slice(),
            )
        }
        Stmt::Choice { at, cond, yes, no } => match no {
            None => run_if(alloc, m, defs, names, p, *at, cond, yes.as_slice()),
            Some(no) => run_either(
                alloc,
                m,
                defs,
                names,
                p,
                *at,
                cond,
                yes.as_slice(),
                no.as_slice(),
            ),
        },
    }
}

#[cycle(run)]
fn run_loop<S: Secrets>(
    alloc: Global,
    m: &S,
    defs: &Definitions,
    names: &mut Names<S::Value>,
    p: &mut Progress<S::Store>,
    at: Place,
    text: &[u8],
    low: &Expr,
    high: &Expr,
    body: &[Stmt],
) -> Result<(), EvalErr>
    ensures ok { IfOk result (λ _. looped (S.ops m.now) (calls_of (S.ops m.now) defs.now) at text.now low.now high.now
        (run_all (S.ops m.now) (calls_of (S.ops m.now) defs.now) body.now) names.old p.old ≡ Ok (names.new, p.new)) }
    ensures err { IfErr result (λ e. Refuses e (looped (S.ops m.now) (calls_of (S.ops m.now) defs.now) at text.now low.now high.now
        (run_all (S.ops m.now) (calls_of (S.ops m.now) defs.now) body.now) names.old p.old)) }
{
    count(p, 1, at)?;
    let l = evaluate(alloc, m, defs, names, p, low)?;
    let h = evaluate(alloc, m, defs, names, p, high)?;
    run_turns(alloc, m, defs, names, p, at, text, bound(l), bound(h), body)
}

#[cycle(run)]
fn run_if<S: Secrets>(
    alloc: Global,
    m: &S,
    defs: &Definitions,
    names: &mut Names<S::Value>,
    p: &mut Progress<S::Store>,
    at: Place,
    test: &Expr,
    body: &[Stmt],
) -> Result<(), EvalErr>
    ensures ok { IfOk result (λ _. decided (S.ops m.now) (calls_of (S.ops m.now) defs.now) at test.now (map (run (S.ops m.now) (calls_of (S.ops m.now) defs.now)) body.now) None names.old p.old
        ≡ Ok (names.new, p.new)) }
    ensures err { IfErr result (λ e. Refuses e (decided (S.ops m.now) (calls_of (S.ops m.now) defs.now) at test.now
        (map (run (S.ops m.now) (calls_of (S.ops m.now) defs.now)) body.now) None names.old p.old)) }
{
    count(p, 1, at)?;
    let v = evaluate(alloc, m, defs, names, p, test)?;
    if holds(v) {
        run_within(alloc, m, defs, names, p, body)
    } else {
        Ok(())
    }
}

#[cycle(run)]
fn run_either<S: Secrets>(
    alloc: Global,
    m: &S,
    defs: &Definitions,
    names: &mut Names<S::Value>,
    p: &mut Progress<S::Store>,
    at: Place,
    test: &Expr,
    body: &[Stmt],
    other: &[Stmt],
) -> Result<(), EvalErr>
    ensures ok { IfOk result (λ _. decided (S.ops m.now) (calls_of (S.ops m.now) defs.now) at test.now (map (run (S.ops m.now) (calls_of (S.ops m.now) defs.now)) body.now)
        (Some (map (run (S.ops m.now) (calls_of (S.ops m.now) defs.now)) other.now)) names.old p.old ≡ Ok (names.new, p.new)) }
    ensures err { IfErr result (λ e. Refuses e (decided (S.ops m.now) (calls_of (S.ops m.now) defs.now) at test.now (map (run (S.ops m.now) (calls_of (S.ops m.now) defs.now)) body.now)
        (Some (map (run (S.ops m.now) (calls_of (S.ops m.now) defs.now)) other.now)) names.old p.old)) }
{
    count(p, 1, at)?;
    let v = evaluate(alloc, m, defs, names, p, test)?;
    if holds(v) {
        run_within(alloc, m, defs, names, p, body)
    } else {
        run_within(alloc, m, defs, names, p, other)
    }
}

#[cycle(run)]
#[tactic(auto, using(crate::proofs::TurnLemmas::turns_go_on, crate::proofs::TurnLemmas::turns_refuse))]
fn run_turns<S: Secrets>(
    alloc: Global,
    m: &S,
    defs: &Definitions,
    names: &mut Names<S::Value>,
    p: &mut Progress<S::Store>,
    at: Place,
    text: &[u8],
    low: i64,
    high: i64,
    body: &[Stmt],
) -> Result<(), EvalErr>
    ensures ok { IfOk result (λ _. turns at text.now (run_all (S.ops m.now) (calls_of (S.ops m.now) defs.now) body.now) (at_least_zero (high -ℤ low)) low names.old p.old ≡ Ok (names.new, p.new)) }
    ensures err { IfErr result (λ e. Refuses e (turns at text.now (run_all (S.ops m.now) (calls_of (S.ops m.now) defs.now) body.now) (at_least_zero (high -ℤ low)) low names.old p.old)) }
{
    let mut i = low;
    while i < high {
        run_turn(alloc, m, defs, names, p, at, text, i, body)?;
        i += 1;
    }
    Ok(())
}

#[cycle(run)]
fn run_turn<S: Secrets>(
    alloc: Global,
    m: &S,
    defs: &Definitions,
    names: &mut Names<S::Value>,
    p: &mut Progress<S::Store>,
    at: Place,
    text: &[u8],
    i: i64,
    body: &[Stmt],
) -> Result<(), EvalErr>
    ensures ok { IfOk result (λ _. turn at text.now (run_all (S.ops m.now) (calls_of (S.ops m.now) defs.now) body.now) i names.old p.old ≡ Ok (names.new, p.new)) }
    ensures err { IfErr result (λ e. Refuses e (turn at text.now (run_all (S.ops m.now) (calls_of (S.ops m.now) defs.now) body.now) i names.old p.old)) }
{
    count(p, 1, at)?;
    let visible = names.len();
    names.declare(alloc, text, only(alloc, Value::Public(i))?)?;
    run_all(alloc, m, defs, names, p, body)?;
    names.keep_first(visible);
    Ok(())
}

// Runs a block, whose names go out with it.
#[cycle(run)]
fn run_within<S: Secrets>(
    alloc: Global,
    m: &S,
    defs: &Definitions,
    names: &mut Names<S::Value>,
    p: &mut Progress<S::Store>,
    body: &[Stmt],
) -> Result<(), EvalErr>
    ensures ok { IfOk result (λ _. within (run_all (S.ops m.now) (calls_of (S.ops m.now) defs.now) body.now) names.old p.old ≡ Ok (names.new, p.new)) }
    ensures err { IfErr result (λ e. Refuses e (within (run_all (S.ops m.now) (calls_of (S.ops m.now) defs.now) body.now) names.old p.old)) }
{
    let visible = names.len();
    run_all(alloc, m, defs, names, p, body)?;
    names.keep_first(visible);
    Ok(())
}

/// Runs statements in order.
#[cycle(run)]
pub fn run_all<S: Secrets>(
    alloc: Global,
    m: &S,
    defs: &Definitions,
    names: &mut Names<S::Value>,
    p: &mut Progress<S::Store>,
    body: &[Stmt],
) -> Result<(), EvalErr>
    ensures ok { IfOk result (λ _. run_all (S.ops m.now) (calls_of (S.ops m.now) defs.now) body.now names.old p.old ≡ Ok (names.new, p.new)) }
    ensures err { IfErr result (λ e. Refuses e (run_all (S.ops m.now) (calls_of (S.ops m.now) defs.now) body.now names.old p.old)) }
{
    for s in body {
        run(alloc, m, defs, names, p, s)?;
    }
    Ok(())
}

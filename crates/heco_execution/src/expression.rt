ghost use Rattle.std.specs.Prelude.{◌≡◌, [], IfOk, IfErr, Ok, cond, map};
ghost use Rattle.heco_execution.specs.Outcomes.{Refuses};
ghost use Rattle.heco_execution.specs.Evaluation.{along, evaluate, sum_part, product_part, in_turn, calls_of, called, meaning};

use crate::calls::{any_secret, with_arguments};
use crate::definitions::Definitions;
use crate::names::{Names, element};
use crate::operators::{as_secret, literal, operate, opposite};
use crate::progress::count;
use crate::{EvalErr, Operator, Progress, Secrets, Value};
use heco_nums::List;
use heco_syntax::{Def, Expr, Ident, ProdPart, SumPart};
use std::alloc::Global;

fn sign(minus: bool) -> Operator
    ensures { result ≡ cond minus Operator.Minus Operator.Plus }
{
    if minus {
        Operator::Minus
    } else {
        Operator::Plus
    }
}

/// The value of an expression.
#[cycle(evaluate)]
pub fn evaluate<S: Secrets>(
    alloc: Global,
    m: &S,
    defs: &Definitions,
    names: &Names<S::Value>,
    p: &mut Progress<S::Store>,
    e: &Expr,
) -> Result<Value<S::Value>, EvalErr>
    ensures ok { IfOk result (λ v. evaluate (S.ops m.now) (calls_of (S.ops m.now) defs.now) e.now names.now p.old ≡ Ok (v, p.new)) }
    ensures err { IfErr result (λ r. Refuses r (evaluate (S.ops m.now) (calls_of (S.ops m.now) defs.now) e.now names.now p.old)) }
{
    match e {
        Expr::Lit(n) => literal(n.at, n.value, p),
        Expr::One(name) => Ok(element(names, name, Value::Public(0))?.value),
        Expr::Item { name, index } => {
            let index = evaluate(alloc, m, defs, names, p, index.get())?;
            Ok(element(names, name, index)?.value)
        }
        Expr::Neg { at, of } => {
            let v = evaluate(alloc, m, defs, names, p, of.get())?;
            count(p, 1, *at)?;
            opposite(m, *at, v, p)
        }
        Expr::Sum { first, rest } => {
            let v = evaluate(alloc, m, defs, names, p, first.get())?;
            let u = sum(alloc, m, defs, names, p, v, rest.as_slice())?;
            Ok(u)
        }
        Expr::Prod { first, rest } => {
            let v = evaluate(alloc, m, defs, names, p, first.get())?;
            let u = product(alloc, m, defs, names, p, v, rest.as_slice())?;
            Ok(u)
        }
        Expr::Call { name, args } => called(alloc, m, defs, names, p, name, args.as_slice()),
    }
}

#[cycle(evaluate)]
fn sum<S: Secrets>(
    alloc: Global,
    m: &S,
    defs: &Definitions,
    names: &Names<S::Value>,
    p: &mut Progress<S::Store>,
    first: Value<S::Value>,
    rest: &[SumPart],
) -> Result<Value<S::Value>, EvalErr>
    ensures ok { IfOk result (λ v. along (S.ops m.now) (map (sum_part (S.ops m.now) (calls_of (S.ops m.now) defs.now)) rest.now) names.now first p.old ≡ Ok (v, p.new)) }
    ensures err { IfErr result (λ e. Refuses e (along (S.ops m.now) (map (sum_part (S.ops m.now) (calls_of (S.ops m.now) defs.now)) rest.now) names.now first p.old)) }
{
    let mut v = first;
    for part in rest {
        let w = evaluate(alloc, m, defs, names, p, &part.of)?;
        count(p, 1, part.at)?;
        v = operate(m, sign(part.minus), part.at, v, w, p)?;
    }
    Ok(v)
}

#[cycle(evaluate)]
fn product<S: Secrets>(
    alloc: Global,
    m: &S,
    defs: &Definitions,
    names: &Names<S::Value>,
    p: &mut Progress<S::Store>,
    first: Value<S::Value>,
    rest: &[ProdPart],
) -> Result<Value<S::Value>, EvalErr>
    ensures ok { IfOk result (λ v. along (S.ops m.now) (map (product_part (S.ops m.now) (calls_of (S.ops m.now) defs.now)) rest.now) names.now first p.old ≡ Ok (v, p.new)) }
    ensures err { IfErr result (λ e. Refuses e (along (S.ops m.now) (map (product_part (S.ops m.now) (calls_of (S.ops m.now) defs.now)) rest.now) names.now first p.old)) }
{
    let mut v = first;
    for part in rest {
        let w = evaluate(alloc, m, defs, names, p, &part.of)?;
        count(p, 1, part.at)?;
        v = operate(m, Operator::Times, part.at, v, w, p)?;
    }
    Ok(v)
}

/// The values of expressions, from left to right.
#[cycle(evaluate)]
pub fn in_turn<S: Secrets>(
    alloc: Global,
    m: &S,
    defs: &Definitions,
    names: &Names<S::Value>,
    p: &mut Progress<S::Store>,
    args: &[Expr],
) -> Result<List<Value<S::Value>>, EvalErr>
    ensures ok { IfOk result (λ vs. in_turn (map (evaluate (S.ops m.now) (calls_of (S.ops m.now) defs.now)) args.now) names.now [] p.old ≡ Ok (vs, p.new)) }
    ensures err { IfErr result (λ e. Refuses e (in_turn (map (evaluate (S.ops m.now) (calls_of (S.ops m.now) defs.now)) args.now) names.now [] p.old)) }
{
    let mut done = List::new(alloc);
    for arg in args {
        let v = evaluate(alloc, m, defs, names, p, arg)?;
        done.push(v)?;
    }
    Ok(done)
}

// A call: its arguments, its step, its definition's value.
#[cycle(evaluate)]
fn called<S: Secrets>(
    alloc: Global,
    m: &S,
    defs: &Definitions,
    names: &Names<S::Value>,
    p: &mut Progress<S::Store>,
    name: &Ident,
    args: &[Expr],
) -> Result<Value<S::Value>, EvalErr>
    ensures ok { IfOk result (λ v. called (calls_of (S.ops m.now) defs.now) name.now (map (evaluate (S.ops m.now) (calls_of (S.ops m.now) defs.now)) args.now) names.now p.old ≡ Ok (v, p.new)) }
    ensures err { IfErr result (λ e. Refuses e (called (calls_of (S.ops m.now) defs.now) name.now (map (evaluate (S.ops m.now) (calls_of (S.ops m.now) defs.now)) args.now) names.now p.old)) }
{
    let values = in_turn(alloc, m, defs, names, p, args)?;
    count(p, 1, name.at)?;
    call(alloc, m, defs, p, name.text.as_slice(), values)
}

// A call by its name.
#[cycle(evaluate)]
#[tactic(auto, using(crate::proofs::CallLemmas::call_last, crate::proofs::CallLemmas::call_none, crate::proofs::CallLemmas::room_at))]
fn call<S: Secrets>(
    alloc: Global,
    m: &S,
    defs: &Definitions,
    p: &mut Progress<S::Store>,
    name: &[u8],
    args: List<Value<S::Value>>,
) -> Result<Value<S::Value>, EvalErr>
    ensures ok { IfOk result (λ v. calls_of (S.ops m.now) defs.now name.now args p.old ≡ Ok (v, p.new)) }
    ensures err { IfErr result (λ e. Refuses e (calls_of (S.ops m.now) defs.now name.now args p.old)) }
{
    match defs.find(name) {
        None => Ok(Value::Public(0)),
        Some(k) => apply(alloc, m, &defs.before(k), defs.at(k), p, args),
    }
}

// A call of a definition, over those before it.
#[cycle(evaluate)]
#[tactic(auto, unfolding(crate::specs::Evaluation::meaning))]
fn apply<S: Secrets>(
    alloc: Global,
    m: &S,
    before: &Definitions,
    d: &Def,
    p: &mut Progress<S::Store>,
    args: List<Value<S::Value>>,
) -> Result<Value<S::Value>, EvalErr>
    ensures ok { IfOk result (λ v. meaning (S.ops m.now) (calls_of (S.ops m.now) before.now) d.now args p.old ≡ Ok (v, p.new)) }
    ensures err { IfErr result (λ e. Refuses e (meaning (S.ops m.now) (calls_of (S.ops m.now) before.now) d.now args p.old)) }
{
    let names = with_arguments(alloc, d.params.as_slice(), args.as_slice())?;
    let v = evaluate(alloc, m, before, &names, p, &d.value)?;
    if any_secret(args.as_slice()) {
        Ok(Value::Secret(as_secret(m, v, p)?))
    } else {
        Ok(v)
    }
}

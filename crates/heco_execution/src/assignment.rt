ghost use Rattle.std.specs.Prelude.{◌≡◌, IfOk, IfErr, Ok, replicate};
ghost use Rattle.heco_execution.specs.Outcomes.{Refuses};
ghost use Rattle.heco_execution.specs.Evaluation.{calls_of};
ghost use Rattle.heco_execution.specs.Execution.{zeros, kept, combined, target_index, initial};

use crate::definitions::Definitions;
use crate::expression::evaluate;
use crate::names::Names;
use crate::operators::{as_secret, operate};
use crate::{EvalErr, Operator, Progress, Secrets, Value};
use heco_lex::Place;
use heco_nums::{List, Memory};
use heco_syntax::{Expr, SetOp};
use std::alloc::Global;

fn copies<V: Copy>(alloc: Global, n: u64, v: Value<V>) -> Result<List<Value<V>>, Memory>
    ensures { IfOk result (λ list. list ≡ replicate n v) }
{
    let mut list = List::new(alloc);
    for _ in 0..n {
        list.push(v)?;
    }
    Ok(list)
}

/// The list of so many secret zeros.
pub fn zeros<S: Secrets>(
    alloc: Global,
    m: &S,
    p: &mut Progress<S::Store>,
    n: u64,
) -> Result<List<Value<S::Value>>, Memory>
    ensures { IfOk result (λ list. zeros (S.ops m.now) n p.old ≡ Ok (list, p.new)) }
{
    let zero = m.of_number(0, &mut p.store)?;
    copies(alloc, n, Value::Secret(zero))
}

/// What stands in place of `old` when it takes `v`: a secret stays one.
pub fn kept<S: Secrets>(
    m: &S,
    old: Value<S::Value>,
    v: Value<S::Value>,
    p: &mut Progress<S::Store>,
) -> Result<Value<S::Value>, Memory>
    ensures { IfOk result (λ u. kept (S.ops m.now) old v p.old ≡ Ok (u, p.new)) }
{
    match old {
        Value::Public(_) => Ok(v),
        Value::Secret(_) => Ok(Value::Secret(as_secret(m, v, p)?)),
    }
}

/// What `old` is set to by an operator.
pub fn combined<S: Secrets>(
    m: &S,
    op: SetOp,
    at: Place,
    old: Value<S::Value>,
    v: Value<S::Value>,
    p: &mut Progress<S::Store>,
) -> Result<Value<S::Value>, EvalErr>
    ensures ok { IfOk result (λ u. combined (S.ops m.now) op at old v p.old ≡ Ok (u, p.new)) }
    ensures err { IfErr result (λ e. Refuses e (combined (S.ops m.now) op at old v p.old)) }
{
    match op {
        SetOp::Put => Ok(kept(m, old, v, p)?),
        SetOp::Add => operate(m, Operator::Plus, at, old, v, p),
        SetOp::Sub => operate(m, Operator::Minus, at, old, v, p),
        SetOp::Mul => operate(m, Operator::Times, at, old, v, p),
    }
}

/// The index of what is set: of a name alone 0.
pub fn target_index<S: Secrets>(
    alloc: Global,
    m: &S,
    defs: &Definitions,
    names: &Names<S::Value>,
    p: &mut Progress<S::Store>,
    index: &Option<Expr>,
) -> Result<Value<S::Value>, EvalErr>
    ensures ok { IfOk result (λ v. target_index (S.ops m.now) (calls_of (S.ops m.now) defs.now) index.now names.now p.old ≡ Ok (v, p.new)) }
    ensures err { IfErr result (λ e. Refuses e (target_index (S.ops m.now) (calls_of (S.ops m.now) defs.now) index.now names.now p.old)) }
{
    match index {
        None => Ok(Value::Public(0)),
        Some(e) => evaluate(alloc, m, defs, names, p, e),
    }
}

/// What a declared name starts as: its value as a secret, or without one a secret 0.
pub fn initial<S: Secrets>(
    alloc: Global,
    m: &S,
    defs: &Definitions,
    names: &Names<S::Value>,
    p: &mut Progress<S::Store>,
    value: &Option<Expr>,
) -> Result<Value<S::Value>, EvalErr>
    ensures ok { IfOk result (λ v. initial (S.ops m.now) (calls_of (S.ops m.now) defs.now) value.now names.now p.old ≡ Ok (v, p.new)) }
    ensures err { IfErr result (λ e. Refuses e (initial (S.ops m.now) (calls_of (S.ops m.now) defs.now) value.now names.now p.old)) }
{
    match value {
        None => Ok(Value::Secret(m.of_number(0, &mut p.store)?)),
        Some(e) => {
            let v = evaluate(alloc, m, defs, names, p, e)?;
            Ok(Value::Secret(as_secret(m, v, p)?))
        }
    }
}

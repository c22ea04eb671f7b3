ghost use Rattle.std.specs.Prelude.{◌≡◌, IfOk, IfErr, Ok, pos};
ghost use Rattle.heco_execution.specs.Outcomes.{Refuses, in_range};
ghost use Rattle.heco_execution.specs.Evaluation.{on_whole, public, on_secrets, as_secret, secret_result, operate, opposite};

use crate::{EvalErr, Operator, Progress, Secrets, Value};
use heco_lex::{Place, Rule};
use heco_nums::Memory;

fn not_in_range(at: Place) -> EvalErr
    ensures { result ≡ EvalErr.At Rule.PublicRange at }
{
    EvalErr::At {
        rule: Rule::PublicRange,
        at,
    }
}

fn in_range(at: Place, n: i64) -> Result<i64, EvalErr>
    ensures ok { IfOk result (λ z. in_range at n ≡ Ok z) }
    ensures err { IfErr result (λ e. Refuses e (in_range at n)) }
{
    if n.unsigned_abs() <= 1 << 31 {
        Ok(n)
    } else {
        Err(not_in_range(at))
    }
}

/// A literal.
pub fn literal<V, T>(at: Place, value: u64, p: &Progress<T>) -> Result<Value<V>, EvalErr>
    ensures ok { IfOk result (λ v. public {S = T} {V = V} at (pos value) p.now ≡ Ok (v, p.now)) }
    ensures err { IfErr result (λ e. Refuses e (public {S = T} {V = V} at (pos value) p.now)) }
{
    if value <= 1 << 31 {
        Ok(Value::Public(value as i64))
    } else {
        Err(not_in_range(at))
    }
}

// An operator between two whole numbers.
fn on_whole(o: Operator, at: Place, x: i64, y: i64) -> Result<i64, EvalErr>
    ensures ok { IfOk result (λ z. in_range at (on_whole o x y) ≡ Ok z) }
    ensures err { IfErr result (λ e. Refuses e (in_range at (on_whole o x y))) }
{
    let z = match o {
        Operator::Plus => x.checked_add(y),
        Operator::Minus => x.checked_sub(y),
        Operator::Times => x.checked_mul(y),
    };
    match z {
        Some(z) => in_range(at, z),
        None => Err(not_in_range(at)),
    }
}

// An operator between two secrets.
fn on_secrets<S: Secrets>(
    m: &S,
    o: Operator,
    x: S::Value,
    y: S::Value,
    p: &mut Progress<S::Store>,
) -> Result<S::Value, Memory>
    ensures { IfOk result (λ v. on_secrets (S.ops m.now) o x y p.old ≡ Ok (v, p.new)) }
{
    match o {
        Operator::Plus => m.add(x, y, &mut p.store),
        Operator::Minus => {
            let y = m.negate(y, &mut p.store)?;
            m.add(x, y, &mut p.store)
        }
        Operator::Times => m.multiply(x, y, &mut p.store),
    }
}

/// A value as a secret.
pub fn as_secret<S: Secrets>(
    m: &S,
    v: Value<S::Value>,
    p: &mut Progress<S::Store>,
) -> Result<S::Value, Memory>
    ensures { IfOk result (λ v'. as_secret (S.ops m.now) v p.old ≡ Ok (v', p.new)) }
{
    match v {
        Value::Public(n) => m.of_number(n, &mut p.store),
        Value::Secret(x) => Ok(x),
    }
}

// An operator between two secrets, as a value.
fn secret_result<S: Secrets>(
    m: &S,
    o: Operator,
    x: S::Value,
    y: S::Value,
    p: &mut Progress<S::Store>,
) -> Result<Value<S::Value>, Memory>
    ensures { IfOk result (λ v. secret_result (S.ops m.now) o x y p.old ≡ Ok (v, p.new)) }
{
    let u = on_secrets(m, o, x, y, p)?;
    Ok(Value::Secret(u))
}

/// An operator between two values.
pub fn operate<S: Secrets>(
    m: &S,
    o: Operator,
    at: Place,
    x: Value<S::Value>,
    y: Value<S::Value>,
    p: &mut Progress<S::Store>,
) -> Result<Value<S::Value>, EvalErr>
    ensures ok { IfOk result (λ v. operate (S.ops m.now) o at x y p.old ≡ Ok (v, p.new)) }
    ensures err { IfErr result (λ e. Refuses e (operate (S.ops m.now) o at x y p.old)) }
{
    match (x, y) {
        (Value::Public(a), Value::Public(b)) => Ok(Value::Public(on_whole(o, at, a, b)?)),
        (Value::Public(a), Value::Secret(b)) => {
            let a = m.of_number(a, &mut p.store)?;
            Ok(secret_result(m, o, a, b, p)?)
        }
        (Value::Secret(a), _) => {
            let b = as_secret(m, y, p)?;
            Ok(secret_result(m, o, a, b, p)?)
        }
    }
}

/// The negative of a value.
pub fn opposite<S: Secrets>(
    m: &S,
    at: Place,
    x: Value<S::Value>,
    p: &mut Progress<S::Store>,
) -> Result<Value<S::Value>, EvalErr>
    ensures ok { IfOk result (λ v. opposite (S.ops m.now) at x p.old ≡ Ok (v, p.new)) }
    ensures err { IfErr result (λ e. Refuses e (opposite (S.ops m.now) at x p.old)) }
{
    match x {
        Value::Public(n) => Ok(Value::Public(on_whole(Operator::Minus, at, 0, n)?)),
        Value::Secret(v) => Ok(Value::Secret(m.negate(v, &mut p.store)?)),
    }
}

ghost use Rattle.std.specs.Prelude.{◌≡◌, [], ◌∷◌, IfOk};
ghost use Rattle.std.specs.List.{list_any};
ghost use Rattle.heco_execution.specs.Evaluation.{with_arguments, is_secret};
ghost use Rattle.heco_execution.specs.States.{nothing};

use crate::Value;
use crate::names::Names;
use heco_nums::{List, Memory};
use heco_syntax::Ident;
use std::alloc::Global;

fn is_secret<V: Copy>(v: Value<V>) -> bool
    ensures { result ≡ is_secret v }
{
    match v {
        Value::Public(_) => false,
        Value::Secret(_) => true,
    }
}

/// Whether one of the values is secret.
pub fn any_secret<V: Copy>(values: &[Value<V>]) -> bool
    ensures { result ≡ list_any is_secret values.now }
{
    for v in values {
        if is_secret(*v) {
            return true;
        }
    }
    false
}

/// The list of one value.
pub fn only<V: Copy>(alloc: Global, v: Value<V>) -> Result<List<Value<V>>, Memory>
    ensures { IfOk result (λ list. list ≡ v ∷ []) }
{
    let mut list = List::new(alloc);
    list.push(v)?;
    Ok(list)
}

/// The parameters of a definition, each with the value of its argument.
pub fn with_arguments<V: Copy>(
    alloc: Global,
    params: &[Ident],
    args: &[Value<V>],
) -> Result<Names<V>, Memory>
    ensures { IfOk result (λ names. names ≡ with_arguments params.now args.now nothing) }
{
    let mut names = Names::new(alloc);
    let mut i = 0;
    for x in params {
        let Some(v) = args.get(i) else {
            return Ok(names);
        };
        names.declare(alloc, x.text.as_slice(), only(alloc, *v)?)?;
        i += 1;
    }
    Ok(names)
}

ghost use Rattle.std.specs.Prelude.{◌≡◌, ℕ, [], ◌∷◌, IfOk, IfErr, Ok, map, slice_index_or};
ghost use Rattle.heco_execution.specs.Outcomes.{Refuses};
ghost use Rattle.heco_execution.specs.States.{nothing};
ghost use Rattle.heco_execution.specs.Whole.{opened, as_secrets, with_output, outputs, execute};
ghost use Rattle.heco_execution.specs.declared.value.Value.TheVariants.{Secret};

use crate::assignment::zeros;
use crate::definitions::{Definitions, Index};
use crate::names::Names;
use crate::operators::as_secret;
use crate::statement::run_all;
use crate::{EvalErr, Progress, Secrets, Value};
use heco_nums::{List, Memory};
use heco_syntax::{Param, Source};
use std::alloc::Global;

fn secrets<V: Copy>(alloc: Global, row: &[V]) -> Result<List<Value<V>>, Memory>
    ensures { IfOk result (λ list. list ≡ map (λ v. Secret v) row.now) }
{
    let mut list = List::new(alloc);
    for v in row {
        list.push(Value::Secret(*v))?;
    }
    Ok(list)
}

fn row_at<V>(rows: &[List<V>], i: usize) -> &[V]
    ensures { result.now ≡ slice_index_or rows.now i [] }
{
    match rows.get(i) {
        None => &[],
        Some(row) => row.as_slice(),
    }
}

// The names of the parameters, with what they hold at first.
fn opened<S: Secrets>(
    alloc: Global,
    m: &S,
    ports: &[Param],
    rows: &[List<S::Value>],
    p: &mut Progress<S::Store>,
) -> Result<Names<S::Value>, Memory>
    ensures { IfOk result (λ names. opened (S.ops m.now) ports.now rows.now nothing p.old ≡ Ok (names, p.new)) }
{
    let mut names = Names::new(alloc);
    let mut next = 0;
    for port in ports {
        if port.output {
            let list = zeros(alloc, m, p, port.length())?;
            names.declare(alloc, port.name.text.as_slice(), list)?;
        } else {
            let list = secrets(alloc, row_at(rows, next))?;
            names.declare(alloc, port.name.text.as_slice(), list)?;
            next += 1;
        }
    }
    Ok(names)
}

fn as_secrets<S: Secrets>(
    alloc: Global,
    m: &S,
    list: &[Value<S::Value>],
    p: &mut Progress<S::Store>,
) -> Result<List<S::Value>, Memory>
    ensures { IfOk result (λ row. as_secrets (S.ops m.now) list.now [] p.old ≡ Ok (row, p.new)) }
{
    let mut row = List::new(alloc);
    for v in list {
        let secret = as_secret(m, *v, p)?;
        row.push(secret)?;
    }
    Ok(row)
}

#[tactic(auto, unfolding(crate::specs::Whole::with_output))]
fn with_output<S: Secrets>(
    alloc: Global,
    m: &S,
    port: &Param,
    names: &Names<S::Value>,
    p: &mut Progress<S::Store>,
    done: List<List<S::Value>>,
) -> Result<List<List<S::Value>>, Memory>
    ensures { IfOk result (λ rows. with_output (S.ops m.now) port.now names.now done p.old ≡ Ok (rows, p.new)) }
{
    let mut rows = done;
    if port.output {
        let row = as_secrets(alloc, m, names.list_of(port.name.text.as_slice()), p)?;
        rows.push(row)?;
    }
    Ok(rows)
}

fn outputs<S: Secrets>(
    alloc: Global,
    m: &S,
    ports: &[Param],
    names: &Names<S::Value>,
    p: &mut Progress<S::Store>,
) -> Result<List<List<S::Value>>, Memory>
    ensures { IfOk result (λ rows. outputs (S.ops m.now) ports.now names.now [] p.old ≡ Ok (rows, p.new)) }
{
    let mut rows = List::new(alloc);
    for port in ports {
        rows = with_output(alloc, m, port, names, p, rows)?;
    }
    Ok(rows)
}

/// Executes a source on the rows of its inputs, and gives the rows of its outputs. The rule is IndexRange, PublicRange
/// or TooLarge, the first that the execution breaks.
#[tactic(auto, unfolding(crate::specs::Whole::execute))]
pub fn execute<S: Secrets>(
    alloc: Global,
    m: &S,
    source: &Source,
    rows: &[List<S::Value>],
    p: &mut Progress<S::Store>,
) -> Result<List<List<S::Value>>, EvalErr>
    ensures ok { IfOk result (λ out. execute (S.ops m.now) source.now rows.now p.old ≡ Ok (out, p.new)) }
    ensures err { IfErr result (λ e. Refuses e (execute (S.ops m.now) source.now rows.now p.old)) }
{
    let index = Index::new(alloc, source.defs.as_slice())?;
    let mut names = opened(alloc, m, source.ports.as_slice(), rows, p)?;
    run_all(
        alloc,
        m,
        &Definitions::all(&index),
        &mut names,
        p,
        source.body.as_slice(),
    )?;
    Ok(outputs(alloc, m, source.ports.as_slice(), &names, p)?)
}

use crate::circuit::greatest_bound;
use crate::sample::{means_the_source, rows_of};
use crate::source::{compiled, source_of, typed};
use heco_circuit::Circuit;
use heco_meaning::meaning;
use heco_nums::{Inputs, List};
use std::alloc::Global;
use std::test::Fail;

// The source; how many gates its circuit has, and their greatest bound; and the numbers of its plain vectors in order.
// One product by a plain vector stands for several multiples of a wire that only outputs read: not for one alone, not
// for two of which one slot is asked, and not for those that a gate reads.
const ROWS: &str =
    "f(in x[2], out y[2]) { int w[2] = {2, 3}; for i in 0..2 { y[i] = w[i]*x[i]; } }|1|4825310| 2 3 0 0 0 0 0 0
f(in x[2], out y[2]) { for i in 0..2 { y[i] = 2*x[i]; } }|1|9508|
f(in x[2], out y[2]) { y[0] = 2*x[0]; y[1] = 3*x[0]; }|2|14262|
f(in x[3], out y) { int w[3] = {2, 3, 1}; for i in 0..3 { y += w[i]*x[i]; } }|6|1459500|";

const WEIGHTS: &str =
    "f(in x[2], out y[2]) { int w[2] = {2, 3}; for i in 0..2 { y[i] = w[i]*x[i]; } }";

// The numbers of all vectors, each behind a space.
fn numbers_of(alloc: Global, vectors: &[List<u32>]) -> Result<String, Fail> {
    let mut text = String::new(alloc);
    for vector in vectors {
        for number in vector.as_slice() {
            text.push_str(format!(in alloc; " {number}")?.as_str())?;
        }
    }
    Ok(text)
}

fn has_vectors(alloc: Global, c: &Circuit, numbers: &str) -> Result<bool, Fail> {
    Ok(numbers_of(alloc, c.vectors().as_slice())?.as_str() == numbers)
}

fn costs(alloc: Global, c: &Circuit, gates: &str, bound: &str) -> Result<bool, Fail> {
    let gates = gates.parse::<usize>()?;
    let bound = bound.parse::<u128>()?;
    Ok(c.gates().len() == gates && greatest_bound(alloc, c)? == bound)
}

fn is_as_said(alloc: Global, c: &Circuit, said: &str) -> Result<bool, Fail> {
    let (gates, rest) = said.split_once('|').ok_or("no bound")?;
    let (bound, numbers) = rest.split_once('|').ok_or("no vectors")?;
    Ok(costs(alloc, c, gates, bound)? && has_vectors(alloc, c, numbers)?)
}

fn means_it(alloc: Global, source: &str, c: &Circuit) -> Result<bool, Fail> {
    let t = typed(alloc, source)?;
    means_the_source(alloc, &t, c)
}

fn source_holds(alloc: Global, source: &str, said: &str) -> Result<bool, Fail> {
    let c = compiled(alloc, source)?;
    Ok(is_as_said(alloc, &c, said)? && means_it(alloc, source, &c)?)
}

fn holds(alloc: Global, row: &str) -> Result<bool, Fail> {
    let (field, said) = row.split_once('|').ok_or("no gates")?;
    let source = source_of(alloc, field)?;
    source_holds(alloc, source.as_str(), said)
}

#[test]
fn each_circuit_is_gathered_as_its_row_says(rt: HostRuntime) -> Result<(), Fail> {
    for row in ROWS.lines() {
        assert!(rt; holds(rt.alloc(), row)?, "{row}");
    }
    Ok(())
}

// Whether the one output is this row.
fn gives_row(alloc: Global, c: &Circuit, inputs: &Inputs, wanted: &[u32]) -> Result<bool, Fail> {
    let found = meaning(alloc, c, inputs)?;
    match found.rows.as_slice() {
        [row] => Ok(row.as_slice() == wanted),
        _ => Ok(false),
    }
}

fn gives_products(alloc: Global, c: &Circuit) -> Result<bool, Fail> {
    let inputs = rows_of(alloc, c.inputs().as_slice(), [4, 5].as_slice())?;
    gives_row(alloc, c, &inputs, [8, 15].as_slice())
}

fn weights_give_products(alloc: Global, source: &str) -> Result<bool, Fail> {
    let c = compiled(alloc, source)?;
    gives_products(alloc, &c)
}

#[test]
fn each_weight_multiplies_its_element(rt: HostRuntime) -> Result<(), Fail> {
    let source = source_of(rt.alloc(), WEIGHTS)?;
    assert!(rt; weights_give_products(rt.alloc(), source.as_str())?);
    Ok(())
}

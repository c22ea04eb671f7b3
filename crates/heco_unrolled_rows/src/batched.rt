use crate::answer::typed;
use bumpalo::Bump;
use heco_batch::batch;
use heco_ir::{Home, Homes, Ir, Vector};
use heco_types::Typed;
use heco_unroll::{EvalErr, unroll};
use std::alloc::Global;
use std::test::Fail;

// What unrolling ensures is what batching asks.
fn unrolled_and_batched<'b, 'c>(
    alloc: Global,
    t: &Typed,
    b: &'b Bump,
    c: &'c Bump,
) -> Result<(Ir<'c, Vector>, Homes), EvalErr> {
    let preset = t.preset();
    let ir = unroll(alloc, t, b)?;
    let batched = batch(alloc, &ir, preset, c)?;
    Ok(batched)
}

fn are_wanted(homes: &[Home]) -> bool {
    let wanted = [
        Home::At { root: 0, slot: 1 },
        Home::At { root: 1, slot: 2 },
        Home::At { root: 2, slot: 3 },
    ];
    homes == wanted.as_slice()
}

// Whether the homes are as they should be, and how many nodes there are.
fn told(alloc: Global, t: &Typed) -> Result<(bool, u32), Fail> {
    let (old, new) = (Bump::new(alloc), Bump::new(alloc));
    match unrolled_and_batched(alloc, t, &old, &new) {
        Ok((ir, homes)) => Ok((are_wanted(homes.as_slice()), ir.len())),
        Err(_) => Err("refused".into()),
    }
}

fn told_of(alloc: Global, text: &str) -> Result<(bool, u32), Fail> {
    let t = typed(alloc, text)?;
    told(alloc, &t)
}

// A source, and its nodes: the input, its negative, that turned, and their sum; so too by a call, and one product more
// where the definition is called twice.
const ROWS: &str = "fn f(in a[4], out y[3]) { for i in 0..3 { y[i] = a[i+1] - a[i]; } }|4
def d(x, z) = x - z; fn f(in a[4], out y[3]) { for i in 0..3 { y[i] = d(a[i+1], a[i]); } }|4
def d(x, z) = x - z; fn f(in a[4], out y[3]) { for i in 0..3 { y[i] = d(a[i+1], a[i]) * d(a[i+1], a[i]); } }|5";

fn holds(alloc: Global, row: &str) -> Result<bool, Fail> {
    let (source, wanted) = row.split_once('|').ok_or("no count")?;
    let text = format!(in alloc; "params p8; {source}")?;
    Ok(told_of(alloc, text.as_str())? == (true, wanted.parse::<u32>()?))
}

#[test]
fn differences_of_neighbours_share_their_nodes(rt: HostRuntime) -> Result<(), Fail> {
    for row in ROWS.lines() {
        assert!(rt; holds(rt.alloc(), row)?, "{row}");
    }
    Ok(())
}

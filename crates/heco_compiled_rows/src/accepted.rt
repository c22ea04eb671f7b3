use crate::circuit::{greatest_bound, has_inputs, has_outputs, keys_of};
use crate::sample::means_the_source;
use crate::source::{compiled, source_of, typed};
use heco_circuit::Circuit;
use heco_types::Typed;
use std::alloc::Global;
use std::test::Fail;

// The source; the smaller of its two costs and the greatest bound of its written form, which its circuit keeps within;
// and the keys that the circuit needs.
const ROWS: &str =
    "f(in a[8], in b[8], out s) { for i in 0..8 { s += a[i]*b[i]; } }|8|794538952|relin 1 2 4
f(in a[8], out y[7]) { for i in 0..7 { y[i] = a[i] + a[i+1]; } }|2|724996| 1
f(in a[8], out y[7]) { for i in 0..7 { y[i] = a[i+1] - a[i]; } }|3|724996| 7
f(in x, out y) { y = x*x; y = y*y; y = y*y; }|6|41913197113166453|relin
f(in x, out y) { secret z = x*x; z = z*z; z = z*z; z = z*z; y = x; }|0|0|
f(in a[8], out y) { for i in 0..7 { y += a[i]; } }|8|4326206| 1 2 4
f(in a[8], out y) { y = a[0]+a[0]+a[1]; }|3|729750| 1
f(in a[8], out y) { y = a[6]+a[7]+a[0]; }|4|1445238| 1 2
f(in a[8], out y) { for i in 0..8 { y += a[i]; } for i in 0..8 { y += a[i]; } }|7|10092896| 1 2 4
f(out y) { y = 5; }|0|0|
f(in x) { }|0|0|
params p64; fn dot(in a[64], in b[64], out s) { for i in 0..64 { s += a[i]*b[i]; } }|14|335449990208|relin 1 2 4 8 16 32
params q512; fn dot(in a[512], in b[512], out s) { for i in 0..512 { s += a[i]*b[i]; } }|20|106970622267936256|relin 1 2 4 8 16 32 64 128 256
f(in a, in b, in c, in d, out y) { y = a*b + c*d; }|4|196667146|relin
f(in a[8], in b[8], out s) { for i in 0..8 { s += (a[i]-b[i])*(a[i]-b[i]); } }|10|1578302408|relin 1 2 4
params p64; fn blur(in img[64], out o[64]) { for x in 1..7 { for y in 1..7 { for i in 0..3 { for j in 0..3 { o[x*8+y] += img[(x+i-1)*8 + y+j-1]; } } } } }|8|91740900| 1 2 8 16
f(in x[3], out y) { int w[3] = {2, 3, 1}; for i in 0..3 { y += w[i]*x[i]; } }|6|1459500| 1 2
params p8; def sq(x) = x*x; fn f(in a[8], in b[8], out s) { for i in 0..8 { s += sq(a[i]-b[i]); } }|10|1578302408|relin 1 2 4
f(in a[8], out y[8]) { for i in 0..8 { if i { y[i] = a[i-1]; } else { y[i] = a[7]; } } }|0|0|
f(in a, in b, out y) { y = 2*(a*b); }|3|197382634|relin
f(in a, in b, out y) { y = a*b + 1; }|3|98691445|relin
f(in a, in b, in c, out y) { y = c - a*b; }|4|98696071|relin
f(in a, in b, in c, out y) { y = c*(a*b); }|4|1016965036469|relin
f(in x, out y) { y = x + 1; }|1|4882|";

fn keeps_within(alloc: Global, c: &Circuit, gates: &str, bound: &str) -> Result<bool, Fail> {
    let gates = gates.parse::<usize>()?;
    let bound = bound.parse::<u128>()?;
    Ok(c.gates().len() <= gates && greatest_bound(alloc, c)? <= bound)
}

fn has_keys(alloc: Global, c: &Circuit, keys: &str) -> Result<bool, Fail> {
    Ok(keys_of(alloc, c)?.as_str() == keys)
}

// Whether the circuit keeps within its row.
fn is_thrifty(alloc: Global, c: &Circuit, limits: &str) -> Result<bool, Fail> {
    let (gates, rest) = limits.split_once('|').ok_or("no bound")?;
    let (bound, keys) = rest.split_once('|').ok_or("no keys")?;
    Ok(keeps_within(alloc, c, gates, bound)? && has_keys(alloc, c, keys)?)
}

// Whether the circuit has the source's names and lengths, and gives what it gives.
fn is_of(alloc: Global, t: &Typed, c: &Circuit) -> Result<bool, Fail> {
    if !has_inputs(c, t.inputs().as_slice()) || !has_outputs(c, t.outputs().as_slice()) {
        return Ok(false);
    }
    means_the_source(alloc, t, c)
}

fn circuit_holds(alloc: Global, t: &Typed, c: &Circuit, limits: &str) -> Result<bool, Fail> {
    Ok(is_thrifty(alloc, c, limits)? && is_of(alloc, t, c)?)
}

fn typed_holds(alloc: Global, t: &Typed, source: &str, limits: &str) -> Result<bool, Fail> {
    let c = compiled(alloc, source)?;
    circuit_holds(alloc, t, &c, limits)
}

fn source_holds(alloc: Global, source: &str, limits: &str) -> Result<bool, Fail> {
    let t = typed(alloc, source)?;
    typed_holds(alloc, &t, source, limits)
}

fn holds(alloc: Global, row: &str) -> Result<bool, Fail> {
    let (field, limits) = row.split_once('|').ok_or("no cost")?;
    let source = source_of(alloc, field)?;
    source_holds(alloc, source.as_str(), limits)
}

#[test]
fn each_circuit_keeps_within_its_row(rt: HostRuntime) -> Result<(), Fail> {
    for row in ROWS.lines() {
        assert!(rt; holds(rt.alloc(), row)?, "{row}");
    }
    Ok(())
}

use heco_row_steps::{Bench, text_of};
use std::alloc::Global;
use std::test::Fail;

// The source, both input texts, and what `plain` prints on each, with the marks of `text_of`.
const SMALL: &str =
    "f(in a[8], in b[8], out s) { for i in 0..8 { s += a[i]*b[i]; } }|a = 1 2 3 4 5 6 7 8$b = 1 1 1 1 1 1 1 1$|a = 2 2 2 2 2 2 2 2$b = 1 2 3 4 5 6 7 8$|s = 36$|s = 72$
f(in a[8], out y[7]) { for i in 0..7 { y[i] = a[i] + a[i+1]; } }|a = 1 2 3 4 5 6 7 8|a = 8 7 6 5 4 3 2 1|y = 3 5 7 9 11 13 15$|y = 15 13 11 9 7 5 3$
f(in a[8], out y[7]) { for i in 0..7 { y[i] = a[i] + a[i+1]; } }|a = 1 2 3 4 5 6 7 8|a = 1 2 3 4 5 6 7 8|y = 3 5 7 9 11 13 15$|y = 3 5 7 9 11 13 15$
f(in a[8], out y[7]) { for i in 0..7 { y[i] = a[i+1] - a[i]; } }|a = 1 2 3 4 5 6 7 8|a = 8 7 6 5 4 3 2 1|y = 1 1 1 1 1 1 1$|y = 256 256 256 256 256 256 256$
f(in x, out y) { y = x*x; y = y*y; y = y*y; }|x = 3|x = 2|y = 136$|y = 256$
f(out y) { y = 5; }|||y = 5$|y = 5$
f(in x) { }|x = 1|x = 2||
f(in x, out y) { y = x + 1; }|x = 0|x = 256|y = 1$|y = 0$
f(in x, in z, out y, out w[2]) { w[1] = x - z; y = -x; }|x = 2$z = 3|z = 2$x = 3|y = 255$w = 0 256$|y = 254$w = 0 1$
f(in x[3], out y) { int w[3] = {2, 3, 1}; for i in 0..3 { y += w[i]*x[i]; } }|x = 4 5 6|x = 1 0 0|y = 29$|y = 2$
f(in x[2], out y[2]) { int w[2] = {2, 3}; for i in 0..2 { y[i] = w[i]*x[i]; } }|x = 4 5|x = 1 256|y = 8 15$|y = 2 254$
f(in a[8], out y[8]) { for i in 0..8 { if i { y[i] = a[i-1]; } else { y[i] = a[7]; } } }|a = 1 2 3 4 5 6 7 8|a = 5 0 0 0 0 0 0 0|y = 8 1 2 3 4 5 6 7$|y = 0 5 0 0 0 0 0 0$";

// The same of larger presets.
const LARGE: &str =
    "params p32; fn f(in a[16], out s) { for i in 0..16 { s += a[i]*a[i]; } }|a =`1..16`|a =`16* 1`|s = 211$|s = 16$
params q32; fn f(in x, out y) { y = x*65536*65536; }|x = 3|x = 5|y = 3$|y = 5$
params p64; fn f(in a[64], out s) { for i in 0..64 { s += a[i]; } }|a =`64* 1`|a =`64* 256`|s = 64$|s = 193$";

// The same of the largest preset.
const LARGEST: &str =
    "params q512; fn f(in a[512], in b[512], out s) { for i in 0..512 { s += a[i]*b[i]; } }|a =`512* 1`$b =`512* 1`|a =`512* 2`$b =`512* 3`|s = 512$|s = 3072$";

// `pair` makes the same circuit and keys as the commands one after another; what it encrypted can be run, and what that
// gives is its result, of which `decrypt` prints the first row.
const STEPS: &str =
    "plain f.he f.in;plain f.he f.in2;compile f.he c0;draw c0 1 k e;keys c0 k s0 v0;pair f.he f.in f.in2 k e c s v t r;same c c0;same s s0;same v v0;run c v t r0;same r r0;decrypt c s r";

// Whether all print what the row says.
fn holds(alloc: Global, row: &str) -> Result<bool, Fail> {
    let mut fields = row.split('|');
    let mut bench = Bench::new(alloc, 0, 0, 0)?;
    bench.put_field(alloc, "f.he", fields.next().ok_or("no source")?)?;
    bench.put_field(alloc, "f.in", fields.next().ok_or("no inputs")?)?;
    bench.put_field(alloc, "f.in2", fields.next().ok_or("no second inputs")?)?;
    let first = text_of(alloc, fields.next().ok_or("no text")?)?;
    let second = text_of(alloc, fields.next().ok_or("no second text")?)?;
    bench.steps(alloc, STEPS)?;
    let want = format!(in alloc; "0||{first}{second}{first}--\n{second}{first}")?;
    Ok(bench.left(alloc)?.as_str() == want.as_str())
}

#[test]
fn each_row_prints_its_own_text(rt: HostRuntime) -> Result<(), Fail> {
    for row in SMALL.lines() {
        assert!(rt; holds(rt.alloc(), row)?, "{row}");
    }
    Ok(())
}

#[test]
fn larger_rows_print_their_own_texts(rt: HostRuntime) -> Result<(), Fail> {
    for row in LARGE.lines() {
        assert!(rt; holds(rt.alloc(), row)?, "{row}");
    }
    Ok(())
}

#[test]
fn rows_of_512_print_their_own_texts(rt: HostRuntime) -> Result<(), Fail> {
    assert!(rt; holds(rt.alloc(), LARGEST)?);
    Ok(())
}

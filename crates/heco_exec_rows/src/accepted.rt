use heco_row_steps::{Bench, text_of};
use std::alloc::Global;
use std::test::Fail;

// The source, the input text, and what `plain`, `decrypt` and `exec` print, with the marks of `text_of`.
const SMALL: &str =
    "f(in a[8], in b[8], out s) { for i in 0..8 { s += a[i]*b[i]; } }|a = 1 2 3 4 5 6 7 8$b = 1 1 1 1 1 1 1 1$|s = 36$
f(in a[8], out y[7]) { for i in 0..7 { y[i] = a[i] + a[i+1]; } }|a = 1 2 3 4 5 6 7 8|y = 3 5 7 9 11 13 15$
f(in a[8], out y[7]) { for i in 0..7 { y[i] = a[i+1] - a[i]; } }|a = 1 2 3 4 5 6 7 8|y = 1 1 1 1 1 1 1$
f(in x, out y) { y = x*x; y = y*y; y = y*y; }|x = 3|y = 136$
f(in x, out y) { secret z = x*x; z = z*z; z = z*z; z = z*z; y = x; }|x = 3|y = 3$
f(in a[8], out y) { for i in 0..7 { y += a[i]; } }|a = 1 2 3 4 5 6 7 8|y = 28$
f(in a[8], out y) { y = a[0]+a[0]+a[1]; }|a = 1 2 3 4 5 6 7 8|y = 4$
f(in a[8], out y) { y = a[6]+a[7]+a[0]; }|a = 1 2 3 4 5 6 7 8|y = 16$
f(out y) { y = 5; }||y = 5$
f(in x) { }|x = 1|
params p8;fn f(){}||
f(in x, out y) { for i in 3..3 { y = 1; } for i in 5..2 { y = 2; } }|x = 1|y = 0$
f(in x, out y) { y = x; }|x = 256\r$|y = 256$
f(in x, out y) { y = x; }|$# x = 1\r$ x=\t0256 |y = 256$
f(in a, in b, in c, in d, out y) { y = a*b + c*d; }|d = 5$c = 4$b = 3$a = 2|y = 26$
f(in x, out y) { y = x + 1; }|x = 0|y = 1$
f(in x, in z, out y, out w[2]) { w[1] = x - z; y = -x; }|x = 2$z = 3|y = 255$w = 0 256$
f(in x, in z, out y, out w) { w = x*z; y = x; }|x = 2$z = 3|y = 2$w = 6$
f(in a[8], in b[8], out s) { for i in 0..8 { s += (a[i]-b[i])*(a[i]-b[i]); } }|a = 1 0 1 1 0 0 1 0$b = 1 1 0 1 0 1 1 0|s = 3$
f(in x[3], out y) { int w[3] = {2, 3, 1}; for i in 0..3 { y += w[i]*x[i]; } }|x = 4 5 6|y = 29$
f(in x[2], out y[2]) { int w[2] = {2, 3}; for i in 0..2 { y[i] = w[i]*x[i]; } }|x = 4 5|y = 8 15$
params p8; def sq(x) = x*x; fn f(in a[8], in b[8], out s) { for i in 0..8 { s += sq(a[i]-b[i]); } }|a = 1 0 1 1 0 0 1 0$b = 1 1 0 1 0 1 1 0|s = 3$
f(in a[8], out y[8]) { for i in 0..8 { if i { y[i] = a[i-1]; } else { y[i] = a[7]; } } }|a = 1 2 3 4 5 6 7 8|y = 8 1 2 3 4 5 6 7$
params p8;$fn f(in x, out y) {$y = `64*(`x`64*)`;$}|x = 9|y = 9$";

// The same of larger presets.
const LARGE: &str =
    "params p32; fn f(in a[16], out s) { for i in 0..16 { s += a[i]*a[i]; } }|a =`1..16`|s = 211$
params q32; fn f(in x, out y) { y = x*65536*65536; }|x = 3|y = 3$
params p64;$fn blur(in img[64], out o[64]) {$  for x in 1..7 {$    for y in 1..7 {$      for i in 0..3 {$        for j in 0..3 {$          o[x*8+y] += img[(x+i-1)*8 + y+j-1];$        }$      }$    }$  }$}$|img =`64* 1`|o =`9* 0``5* 9 9 9 9 9 9 0 0``6* 9``9* 0`$";

// As many steps as are allowed.
const LONG: &str =
    "params p8;$fn f(in x, out y) {$for i in 0..131071 { y = 1; }$y = 2;$}|x = 1|y = 2$";

// The commands one after another make and print the same as `exec`.
const STEPS: &str =
    "plain f.he f.in;compile f.he c0;draw c0 1 k e;keys c0 k s0 v0;encrypt c0 v0 e f.in t0;run c0 v0 t0 r0;decrypt c0 s0 r0;exec f.he f.in k e c s v t r;same c c0;same s s0;same v v0;same t t0;same r r0";

// Whether all three print what the row says.
fn holds(alloc: Global, row: &str) -> Result<bool, Fail> {
    let mut fields = row.split('|');
    let mut bench = Bench::new(alloc, 0, 0, 0)?;
    bench.put_field(alloc, "f.he", fields.next().ok_or("no source")?)?;
    bench.put_field(alloc, "f.in", fields.next().ok_or("no inputs")?)?;
    let printed = text_of(alloc, fields.next().ok_or("no text")?)?;
    bench.steps(alloc, STEPS)?;
    let want = format!(in alloc; "0||{printed}{printed}{printed}")?;
    Ok(bench.left(alloc)?.as_str() == want.as_str())
}

#[test]
fn all_ways_print_the_same(rt: HostRuntime) -> Result<(), Fail> {
    for row in SMALL.lines() {
        assert!(rt; holds(rt.alloc(), row)?, "{row}");
    }
    Ok(())
}

#[test]
fn larger_sources_print_the_same(rt: HostRuntime) -> Result<(), Fail> {
    for row in LARGE.lines() {
        assert!(rt; holds(rt.alloc(), row)?, "{row}");
    }
    Ok(())
}

#[test]
fn as_many_steps_as_are_allowed_print_the_same(rt: HostRuntime) -> Result<(), Fail> {
    assert!(rt; holds(rt.alloc(), LONG)?);
    Ok(())
}

use crate::answer::holds;
use std::test::Fail;

// The source behind `params p8; fn `, and the terms of its output elements or the broken rule. `0[1]` is element 1 of
// the first input.
const ROWS: &str =
    "f(in a[4], out y[3]) { for i in 0..3 { y[i] = a[i+1] - a[i]; } }|(0[1] + -0[0]);(0[2] + -0[1]);(0[3] + -0[2]);
f(in x, in z, out y) { y = x*z + x; }|((0[0] * 1[0]) + 0[0]);
f(in x, in z, out y) { y = z - x - z; }|((1[0] + -0[0]) + -1[0]);
f(in x, out y) { y += x; y += 0; y *= 1; }|0[0];
f(in x, out y) { y = x * 0; }|0;
f(in x, out y) { y = 0 * x + 300; }|43;
f(in x, out y) { y = x - 1; }|(0[0] + 256);
f(in x, out y) { y = -1 * x; }|(256 * 0[0]);
f(in x, out y) { y = 258 * x; }|0[0];
f(in x, out y) { y = -(-x); }|--0[0];
f(in x, out y) { secret s = 255; s = s * 3; y = s + 6; }|0;
f(out b[2], in x, in z, out a) { a = x; b[1] = z; }|0;1[0];0[0];
f(in x) { }|
f(in a[8], out y) { y = a[8]; }|1:39: IndexRange
f(in a[8], out y) { y = a[0] * a[1] + a[0-1]; }|1:53: IndexRange
f(in x, out y) { y = x + 65536*65536*x; }|1:45: PublicRange";

#[test]
fn each_source_has_its_terms(rt: HostRuntime) -> Result<(), Fail> {
    for row in ROWS.lines() {
        assert!(rt; holds(rt.alloc(), "params p8; fn ", row)?, "{row}");
    }
    Ok(())
}

use crate::answer::holds;
use std::test::Fail;

// The source behind `params p8; `, and what the output elements are once each call is its definition's value: of secret
// arguments and of both kinds, in another order than the names, of public arguments in an index, a bound and a value, of
// none, of a definition by a definition, twice, and in a loop. Last come public values that are taken modulo 257 because
// an argument is secret, also where nothing uses it, and what they break where the argument is public.
const CALLS: &str =
    "def sq(x) = x*x; fn f(in a, in b, out y) { y = sq(a-b); }|((0[0] + -1[0]) * (0[0] + -1[0]));
def d(x, z) = x - z; fn f(in x, in z, out y) { y = d(z, x); }|(1[0] + -0[0]);
def next(k) = k + 1; fn f(in a[4], out y) { for i in 1..next(2) { y += next(i) * a[next(i)]; } }|((2 * 0[2]) + (3 * 0[3]));
def two() = 2; fn f(in x, out y) { y = two() * x; }|(2 * 0[0]);
def sq(x) = x*x; def fourth(x) = sq(sq(x)); fn f(in x, out y) { y = fourth(x); }|((0[0] * 0[0]) * (0[0] * 0[0]));
def sq(x) = x*x; def e(x, z) = sq(x-z) + sq(z); fn f(in x, out y) { y = e(x, 3); }|(((0[0] + 254) * (0[0] + 254)) + 9);
def sq(x) = x*x; fn f(in x, out y, out z) { y = sq(x); z = sq(x) - 1; }|(0[0] * 0[0]);((0[0] * 0[0]) + 256);
def sq(x) = x*x; fn f(in a[2], in b, out s) { for i in 0..2 { s += sq(a[i]-b); } }|(((0[0] + -1[0]) * (0[0] + -1[0])) + ((0[1] + -1[0]) * (0[1] + -1[0])));
def big(k) = 65536*k*65536; fn f(in x, out y) { y = big(x); }|0[0];
def big(k) = 65536*k*65536; fn f(in x, out y) { y = big(1); }|1:32: PublicRange
def big(k) = 2147483648; fn f(in x, out y) { y = big(x) + big(x) + x; }|(1 + 0[0]);
def big(k) = 2147483648; fn f(in x, out y) { y = big(0) + big(0) + x; }|1:68: PublicRange";

// The same for choices: taken and not, with `else` and without, where the condition is negative, where a block that does
// not run would break a rule and where it runs, by the loop's number, and by a call.
const CHOICES: &str = "fn f(in x, in z, out y) { if 1 { y = x; } else { y = z; } }|0[0];
fn f(in x, in z, out y) { if 0 { y = x; } else { y = z; } }|1[0];
fn f(in x, in z, out y) { y = z; if 1-2 { y = x; } }|0[0];
fn f(in x, in z, out y) { y = z; if 1-1 { y = x; } }|1[0];
fn f(in a[8], out y) { if 0 { y = a[8]; } else { y = a[7]; } }|0[7];
fn f(in a[8], out y) { if 1 { y = a[8]; } else { y = a[7]; } }|1:46: IndexRange
fn f(in a[3], out y[3]) { for i in 0..3 { if i { y[i] = a[i] - a[i-1]; } else { y[i] = a[2]; } } }|0[2];(0[1] + -0[0]);(0[2] + -0[1]);
def off(i, k) = i - k; fn f(in a[3], out y) { for i in 0..3 { if off(i, 1) { y += a[i]; } } }|(0[0] + 0[2]);";

#[test]
fn each_call_is_its_definitions_value(rt: HostRuntime) -> Result<(), Fail> {
    for row in CALLS.lines() {
        assert!(rt; holds(rt.alloc(), "params p8; ", row)?, "{row}");
    }
    Ok(())
}

#[test]
fn each_choice_runs_one_block(rt: HostRuntime) -> Result<(), Fail> {
    for row in CHOICES.lines() {
        assert!(rt; holds(rt.alloc(), "params p8; ", row)?, "{row}");
    }
    Ok(())
}

use crate::rows::holds;
use std::test::Fail;

// A source, and what typing answers.
const ROWS: &str =
    "params p8; def sq(x) = x*x; fn f(in a[8], in b[8], out s) { for i in 0..8 { s += sq(a[i]-b[i]); } }|Typed
params p8; fn f(in a[8], out y[8]) { for i in 0..8 { if i { y[i] = a[i-1]; } else { y[i] = a[7]; } } }|Typed
params p8; def sq(x) = x*x; fn f(in a, out s) { s = sq(); }|Length 1:53
params p8; def a() = b(); def b() = 1; fn f(out y) { }|UnknownName 1:22
params p8; def a() = a(); fn f(out y) { }|UnknownName 1:22
params p8; def sq(sq) = sq*sq; fn f(in x, out y) { y = sq(x); }|Typed
params p8; def d(a, a) = a; fn f(out y) { }|Redeclared 1:21
params p8; def d() = 1; def d() = 2; fn f(out y) { }|Redeclared 1:29
params p8; def d() = 1; def e(d) = 2; fn f(out y) { }|Redeclared 1:31
params p8; def d() = 1; fn f(in d, out y) { }|Redeclared 1:33
params p8; def d() = 1; fn f(out y) { int d = 1; }|Redeclared 1:43
params p8; def f() = 1; fn f(out y) { y = f(); }|Typed
params p8; def d(a) = b; fn f(in b, out y) { }|UnknownName 1:23
params p8; def d(a) = a; fn f(out y) { y = a; }|UnknownName 1:44
params p8; def d() = 1; fn f(out y) { d = 1; }|NotAssignable 1:39
params p8; def d() = 1; fn f(out y) { y = d; }|Kind 1:43
params p8; def d() = 1; fn f(out y) { y = d[0]; }|Kind 1:43
params p8; fn f(in x, out y) { y = x(1); }|Kind 1:36
params p8; fn f(in a[8], out y) { y = a(z); }|Kind 1:39
params p8; def d(a) = a(1); fn f(out y) { }|Kind 1:23
params p8; def d(a) = a[0]; fn f(out y) { }|Kind 1:23
params p8; fn f(out y) { y = g(z); }|UnknownName 1:30
params p8; def d(a) = a; fn f(in a[8], in x, out y) { y = a[d(x)]; }|SecretIndex 1:63
params p8; def d(a) = a; fn f(in a[8], in x, out y) { y = a[d(1)] + d(x); }|Typed
params p8; def d(a) = a; fn f(in x, out y) { for i in 0..d(2) { } if d(x) { } }|SecretBound 1:72
params p8; def d(a) = a; fn f(in x, out y) { int k = d(1); k = d(x); }|SecretToPublic 1:66
params p8; fn f(in x, out y) { if x { } }|SecretBound 1:35
params p8; fn f(in x, out y) { int w[2] = {1, 2}; if w[x] { } }|SecretIndex 1:56
params p8; fn f(in x, out y) { if 1 { int k = 1; } y = k; }|UnknownName 1:56
params p8; fn f(in x, out y) { if 1 { int k = 1; } else { y = k; } }|UnknownName 1:63
params p8; fn f(in x, out y) { if 1 { int k = 1; } else { int k = 2; } int k = 3; y = k; }|Typed
params p8; fn f(in x, out y) { if z { u = 1; } else { v = 2; } }|UnknownName 1:35
params p8; fn f(in x, out y) { if 1 { y = 1; } else { v = 2; } }|UnknownName 1:55
params p8; def d(a) = a; fn f(in x, out y) { y = d(u, u); }|Length 1:50
params p8; def d(a) = a; fn f(in x, out y) { y = d(u); }|UnknownName 1:52
params p8; def d1(a) = a; def d2(a) = d1(a); def d3(a) = d2(a); def d4(a) = d3(a); def d5(a) = d4(a); def d6(a) = d5(a); def d7(a) = d6(a); def d8(a) = d7(a); fn f(in x, out y) { y = d8(x); }|Typed
params p8; def d1(a) = a; def d2(a) = d1(a); def d3(a) = d2(a); def d4(a) = d3(a); def d5(a) = d4(a); def d6(a) = d5(a); def d7(a) = d6(a); def d8(a) = d7(a); def d9(a) = d8(a); fn f(in x, out y) { y = d9(x); }|TooNested 1:172
params p8; def d1(a) = a; def d2(a) = d1(a); def d3(a) = d2(a); def d4(a) = d3(a); def d5(a) = d4(a); def d6(a) = d5(a); def d7(a) = d6(a); def d8(a) = d7(a); def d9(a) = d1(d7(a)) + d8(a); fn f(out y) { }|TooNested 1:184
params p8; def d1(a) = a; def d2(a) = d1(a); def d3(a) = d2(a); def d4(a) = d3(a); def d5(a) = d4(a); def d6(a) = d5(a); def d7(a) = d6(a); def d8(a) = d7(a); def d9(a) = d8(); fn f(out y) { }|Length 1:172
params p8; def d1(a) = a; def d2(a) = d1(a); def d3(a) = d2(a); def d4(a) = d3(a); def d5(a) = d4(a); def d6(a) = d5(a); def d7(a) = d6(a); def d8(a) = d7(a); def e(a) = d7(d7(d7(a))); fn f(in x, out y) { y = e(x) + d8(e(x)); }|Typed";

#[test]
fn definitions_calls_and_choices(rt: HostRuntime) -> Result<(), Fail> {
    for row in ROWS.lines() {
        assert!(rt; holds(rt.alloc(), row)?, "{row}");
    }
    Ok(())
}

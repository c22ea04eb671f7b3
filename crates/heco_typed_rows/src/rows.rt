use crate::answer::answer_to;
use std::alloc::Global;
use std::test::Fail;

// A source, with `~` for each line end, and what typing answers.
const ROWS: &str = "params p9;fn f(){}|UnknownParams 1:8
params P8; fn f(in x, out y) { y = z; }|UnknownParams 1:8
params p8;fn f(){}|Typed
params q512; fn f(in a[512], out y) { y = a[511]; }|Typed
params p8; fn f(in x, out y) { y = z; }|UnknownName 1:36
params p8; fn f(in x, out y) { z = x; }|UnknownName 1:32
params p8; fn f(in x, out y) { for i in i..2 { y += x; } }|UnknownName 1:41
params p8; fn f(in x, out y) { for i in 0..2 { secret s = x; } y = s; }|UnknownName 1:68
params p8; fn f(in x, out y) { for i in 0..2 { y += x; } y = i; }|UnknownName 1:62
params p8; fn f(in x, out y) { int k = k; }|UnknownName 1:40
params p8; fn f(in x, out y) { secret s = s; }|UnknownName 1:43
params p8; fn f(in f, out y) { y = f; }|Typed
params p8; fn f(in x, out y) { y = f; }|UnknownName 1:36
params p8; fn f(in a[8], out y) { y = a[n]; }|UnknownName 1:41
params p8; fn f(in x, in x, out y) { y = x; }|Redeclared 1:26
params p8; fn f(in x, out y) { int x = 1; }|Redeclared 1:36
params p8; fn f(in x, out y) { secret y; }|Redeclared 1:39
params p8; fn f(in x, out y) { for y in 0..2 { } }|Redeclared 1:36
params p8; fn f(in x, out y) { for i in 0..2 { int i = 1; } }|Redeclared 1:52
params p8; fn f(in x, out y) { for i in 0..2 { y += x; } for i in 0..2 { y += x; } }|Typed
params p8; fn f(in x, out y) { for i in 0..2 { int k = 1; } int k = 2; y = x; }|Typed
params p8; fn f(in x, out y) { int x[0] = {z}; }|Redeclared 1:36
params p8; fn f(in x, out y) { x = y; }|NotAssignable 1:32
params p8; fn f(in x, out y) { for i in 0..2 { i += 1; } }|NotAssignable 1:48
params p8; fn f(in a[8], out y) { a = y; }|NotAssignable 1:35
params p8; fn f(in x, out y) { x[z] = y; }|NotAssignable 1:32
params p8; fn f(in a[1], out y) { y = a; }|Kind 1:39
params p8; fn f(in x, out y) { y = x[0]; }|Kind 1:36
params p8; fn f(in x, out y[2]) { y = x; }|Kind 1:35
params p8; fn f(in x, out y) { y[0] = x; }|Kind 1:32
params p8; fn f(in a[8], in b[8], out y) { y = a[b]; }|Kind 1:50
params p8; fn f(in b[8], out y) { for i in 0..b { } }|Kind 1:47
params p8; fn f(in b[8], out y) { int k = b; }|Kind 1:43
params p8; fn f(in a[8], in x, out y) { y = a[x]; }|SecretIndex 1:47
params p8; fn f(in x, out y[8]) { y[x] = 1; }|SecretIndex 1:37
params p8; fn f(in x, out y) { int w[2] = {1, 2}; for i in 0..w[x] { } }|SecretIndex 1:65
params p8; fn f(in x, out y) { int w[2] = {1, 2}; int k = w[x]; }|SecretIndex 1:61
params p8; fn f(in x, out y) { int w[2] = {1, 2}; y = w[w[x]]; }|SecretIndex 1:59
params p8; fn f(in a[8], in b[8], out y) { y = a[-(1 + 2 * (b[0]))]; }|SecretIndex 1:61
params p8; fn f(in x, out y) { for i in x..2 { } }|SecretBound 1:41
params p8; fn f(in x, out y) { for i in 0..1 + x { } }|SecretBound 1:48
params p8; fn f(in a[8], out y) { for i in 0..a[0] { } }|SecretBound 1:47
params p8;~fn f(in x, out y) {~  int k = x;~}|SecretToPublic 3:11
params p8; fn f(in x, out y) { int k = 1; k = x; }|SecretToPublic 1:47
params p8; fn f(in x, out y) { int k = 1; k += 2 * x; }|SecretToPublic 1:52
params p8; fn f(in a[8], out y) { int w[2] = {1, a[0]}; }|SecretToPublic 1:50
params p8; fn f(in x, out y) { int w[2] = {1, 2}; w[0] = x; }|SecretToPublic 1:58
params p8; fn f(in x, out y) { secret s; int k = -(1 - s); }|SecretToPublic 1:56
params p8; fn f(in x, out y) { int k = 1; y = k * x; secret s = k; s *= x; }|Typed
params p8; fn f(in a[0], out y) { y = 1; }|Length 1:22
params p8; fn f(in a[8], out y) { y = a[0]; }|Typed
params p8; fn f(in a[9], out y) { y = a[0]; }|Length 1:22
params p32; fn f(in a[32], out y) { y = a[0]; }|Typed
params q512; fn f(in a[513], out y) { y = a[0]; }|Length 1:24
params p8; fn f(out y[4096]) { secret s[4096]; y[0] = s[0]; }|Typed
params p8; fn f(out y[4097]) { }|Length 1:23
params p8; fn f(out y) { secret s[4097]; }|Length 1:35
params p8; fn f(out y) { secret s[0]; }|Length 1:35
params p8; fn f(out y) { int w[4097] = {1}; }|Length 1:32
params p8; fn f(in x, out y) { int w[2] = {x}; }|Length 1:38
params p8; fn f(in x, out y) { int w[1] = {1, 2}; }|Length 1:38
params p8; fn f(in x, out y) { int w[1] = {x}; }|SecretToPublic 1:44
params p8; fn f(in x, out y) { int w[1] = {1}; y = w[0] * x; }|Typed
params p8; fn f(out y[9999999999]) { }|Length 1:23
params p8; fn f(in x, out y) { y = z; x = y; int y = 1; }|UnknownName 1:36
params p8; fn f(in a[0], in a) { }|Length 1:22
params p8; fn f(in x, out y) { y = a + b; }|UnknownName 1:36
params p8; fn f(in x, out y) { for i in x..a { } }|SecretBound 1:41";

// The source of a row, in which `~` is LF.
fn text_of(alloc: Global, field: &str) -> Result<String, Fail> {
    let mut text = String::new(alloc);
    for c in field.chars() {
        text.push(if c == '~' { '\n' } else { c })?;
    }
    Ok(text)
}

/// Whether typing answers to the source of a row what the row says.
pub fn holds(alloc: Global, row: &str) -> Result<bool, Fail> {
    let (field, wanted) = row.split_once('|').ok_or("no answer")?;
    let text = text_of(alloc, field)?;
    Ok(answer_to(alloc, text.as_str())?.as_str() == wanted)
}

#[test]
fn sources_and_their_first_broken_rule(rt: HostRuntime) -> Result<(), Fail> {
    for row in ROWS.lines() {
        assert!(rt; holds(rt.alloc(), row)?, "{row}");
    }
    Ok(())
}

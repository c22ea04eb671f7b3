use crate::text::text_of;
use heco_parse::{ParseErr, parse};
use std::alloc::Global;
use std::test::Fail;

// A source, and what reading it answers.
const ROWS: &str = "params p8;|Syntax 1:11
params p8;@|BadByte 1:11
params p8;~|Syntax 2:1
|Syntax 1:1
params p8;fn f(){}|Tree
params p8; fn f(in x, out y) { y = x x; }|Syntax 1:38
params p8;~fn f(in x, out y) {~y = ((((((((((((((((((((((((((((((((((((((((((((((((((((((((((((((((x)))))))))))))))))))))))))))))))))))))))))))))))))))))))))))))))); }|Tree
params p8;~fn f(in x, out y) {~y = (((((((((((((((((((((((((((((((((((((((((((((((((((((((((((((((((x))))))))))))))))))))))))))))))))))))))))))))))))))))))))))))))))); }|TooNested 3:69
params p8;~fn f(in x, out y) {~y = ((((((((((((((((((((((((((((((((((((((((((((((((((((((((((((((((x(|TooNested 3:70
params p8;~fn f(in x, out y) {~y = ((((((((((((((((((((((((((((((((((((((((((((((((((((((((((((((((1(|Syntax 3:70
params p8;~fn f(in x, out y) {~y = (((((((((((((((((((((((((((((((((((((((((((((((((((((((((((((((((*|TooNested 3:69
params p8;~fn f(in x, out y) {~y = ----------------------------------------------------------------x; }|Tree
params p8;~fn f(in x, out y) {~y = -----------------------------------------------------------------x; }|TooNested 3:69
params p8;~fn f(in x, out y) {~y = x; }|Tree
params p8;~fn f(in x, out y) {~y[(((((((((((((((((((((((((((((((((((((((((((((((((((((((((((((((1)))))))))))))))))))))))))))))))))))))))))))))))))))))))))))))))] = x; }|Tree
params p8;~fn f(in x, out y) {~y[((((((((((((((((((((((((((((((((((((((((((((((((((((((((((((((((1))))))))))))))))))))))))))))))))))))))))))))))))))))))))))))))))] = x; }|TooNested 3:66
params p8;~fn f(in x, out y) {~y = ;  @ }|BadByte 3:8
params p8;~fn f(in x, out y) {~y = x; // @ $ \\~}|Tree
params p8;~fn f(in x, out y) {~y = x; } // the end|Tree
params p8;~fn f(in x, out y) {~y = x; } /  x|BadByte 3:10
params p8;^~fn f(out y)`{^~`y = ; }|Syntax 3:6
params p8;~fn f(in x, out y) {~for i in 0...8 { } }|BadByte 3:13
params p8;~fn f(in x, out y) {~for i in 0....8 { } }|Syntax 3:13
params p8;~fn f(in x, out y) {~y = 00000000001; }|Syntax 3:15
params p8;~fn f(in x, out y) {~y = 1234567890; }|Tree
params p8;~fn f(in x, out y) {~for i0 in 0..2 { for i1 in 0..2 { for i2 in 0..2 { for i3 in 0..2 { for i4 in 0..2 { for i5 in 0..2 { for i6 in 0..2 { y = x; } } } } } } } }|Tree
params p8;~fn f(in x, out y) {~for i0 in 0..2 { for i1 in 0..2 { for i2 in 0..2 { for i3 in 0..2 { for i4 in 0..2 { for i5 in 0..2 { for i6 in 0..2 { for j in 0..2 { } } } } } } } } }|TooNested 3:134
params p8;~fn f(in x, out y) {~for i0 in 0..2 { for i1 in 0..2 { for i2 in 0..2 { for i3 in 0..2 { for i4 in 0..2 { for i5 in 0..2 { for i6 in 0..2 { for j in 0..2 ; } } } } } } } }|Syntax 3:134
params p8;~fn f(in x, out y) {~for i0 in 0..2 { for i1 in 0..2 { for i2 in 0..2 { for i3 in 0..2 { for i4 in 0..2 { for i5 in 0..2 { for i6 in 0..2 { int w[2] = {1, 2}; } } } } } } } }|Tree
params p8; fn f(in x,) {}|Syntax 1:22
params p8; fn f(x) {}|Syntax 1:17
params p8; fn f(in x[y]) {}|Syntax 1:22
params p8; fn f(in x[8], out y[3]) {}|Tree
params p8;~fn f(in x, out y) {~int w[2] = {1, }; }|Syntax 3:16
params p8;~fn f(in x, out y) {~int w[0] = {}; }|Syntax 3:13
params p8;~fn f(in x, out y) {~int k = -2*3 - 1; secret s; secret t = x*k; secret u[3]; u[k+1] += t; y -= s; y *= 2; }|Tree
params p8;~fn f(in x, out y) {~int for = 1; }|Syntax 3:5
params p8;~fn f(in x, out y) {~y = -x*x + (x - 1) - (x - (1 + 2)); }|Tree
params p8;~fn f(in x, out y) {~y = x**x; }|Syntax 3:7
params p8;~fn f(in x, out y) {~y + = x; }|Syntax 3:3
params p8;~fn f(in x, out y) {~y = x[(1)]; }|Tree
params p8;~fn f(in x, out y) {~y = x[1; }|Syntax 3:8
params p8;~fn f(in x, out y) {~y = (x)(x); }|Syntax 3:8
params p8;~fn f(in x, out y) {~y = x; } }|Syntax 3:10
params p8;~fn f(in x, out y) {~y = x;|Syntax 3:7
params 8;|Syntax 1:8
params if_;fn if(){}|Syntax 1:15
params p8;~fn f(in x, out y) {~if x { } }|Tree
params p8;~fn f(in x, out y) {~def = 1; }|Syntax 3:1
params p8; def sq(x) = x*x; fn f(in a[8], in b[8], out s) { for i in 0..8 { s += sq(a[i]-b[i]); } }|Tree
params p8; fn f(in a[8], out y[8]) { for i in 0..8 { if i { y[i] = a[i-1]; } else { y[i] = a[7]; } } }|Tree
params p8; def sq(x) = x*x; fn f(in a, out s) { s = sq(); }|Tree
params p8; def d() = 1|Syntax 1:23
params p8; def d(x,) = 1; fn f(){}|Syntax 1:20
params p8; def d(1) = 1; fn f(){}|Syntax 1:18
params p8; def d() 1; fn f(){}|Syntax 1:20
params p8; fn f(){} def d() = 1;|Syntax 1:21
params p8;~fn f(in x, out y) {~y = f(1, x*2, g());  y = f (1); }|Tree
params p8;~fn f(in x, out y) {~y = f(1,); }|Syntax 3:9
params p8;~fn f(in x, out y) {~y = f(; }|Syntax 3:7
params p8;~fn f(in x, out y) {~y = f(1 2); }|Syntax 3:9
params p8;~fn f(in x, out y) {~y = f()(1); }|Syntax 3:8
params p8;~fn f(in x, out y) {~y = f()[1]; }|Syntax 3:8
params p8;~fn f(in x, out y) {~y = (((((((((((((((((((((((((((((((((((((((((((((((((((((((((((((((f()))))))))))))))))))))))))))))))))))))))))))))))))))))))))))))))); }|Tree
params p8;~fn f(in x, out y) {~y = ((((((((((((((((((((((((((((((((((((((((((((((((((((((((((((((((f())))))))))))))))))))))))))))))))))))))))))))))))))))))))))))))))); }|TooNested 3:70
params p8;~fn f(in x, out y) {~y = f((((((((((((((((((((((((((((((((((((((((((((((((((((((((((((((((x)))))))))))))))))))))))))))))))))))))))))))))))))))))))))))))))); }|Tree
params p8;~fn f(in x, out y) {~y = f(((((((((((((((((((((((((((((((((((((((((((((((((((((((((((((((((x))))))))))))))))))))))))))))))))))))))))))))))))))))))))))))))))); }|TooNested 3:70
params p8;~fn f(in x, out y) {~else { } }|Syntax 3:1
params p8;~fn f(in x, out y) {~if 1 {} else if 1 {} }|Syntax 3:14
params p8;~fn f(in x, out y) {~if 1 {} else {} else {} }|Syntax 3:17
params p8;~fn f(in x, out y) {~if { } }|Syntax 3:4
params p8;~fn f(in x, out y) {~if 1 y = x; }|Syntax 3:6
params p8;~fn f(in x, out y) {~if 1 { y = x; } else y = 1; }|Syntax 3:22
params p8;~fn f(in x, out y) {~if 1 {} else { if 1 {} else { if 1 {} else { if 1 {} else { if 1 {} else { if 1 {} else { if 1 {} else { y = x; } } } } } } } }|Tree
params p8;~fn f(in x, out y) {~if 1 {} else { if 1 {} else { if 1 {} else { if 1 {} else { if 1 {} else { if 1 {} else { if 1 {} else { if 1 { } } } } } } } } }|TooNested 3:111";

fn refusal(alloc: Global, e: ParseErr) -> Result<String, Fail> {
    match e {
        ParseErr::At { rule, at } => Ok(format!(in alloc; "{rule:?} {}:{}", at.line, at.col)?),
        e => Ok(format!(in alloc; "{e}")?),
    }
}

fn answer(alloc: Global, text: &[u8]) -> Result<String, Fail> {
    match parse(alloc, text).err() {
        None => Ok(String::from_str(alloc, "Tree")?),
        Some(e) => refusal(alloc, e),
    }
}

fn holds(alloc: Global, row: &str) -> Result<bool, Fail> {
    let (field, wanted) = row.split_once('|').ok_or("no answer")?;
    let text = text_of(alloc, field)?;
    Ok(answer(alloc, text.as_slice())?.as_str() == wanted)
}

#[test]
fn sources_and_their_answers(rt: HostRuntime) -> Result<(), Fail> {
    for row in ROWS.lines() {
        assert!(rt; holds(rt.alloc(), row)?, "{row}");
    }
    Ok(())
}

// What so many spaces answer.
fn spaces(alloc: Global, count: usize) -> Result<String, Fail> {
    let text = vec![in alloc; b' '; count]?;
    answer(alloc, text.as_slice())
}

#[test]
fn the_longest_source(rt: HostRuntime) -> Result<(), Fail> {
    assert_eq!(rt; spaces(rt.alloc(), 1_048_577)?.as_str(), "SourceLong");
    assert_eq!(rt; spaces(rt.alloc(), 1_048_576)?.as_str(), "Syntax 1:1048577");
    assert_eq!(rt; spaces(rt.alloc(), 65_537)?.as_str(), "Syntax 1:65538");
    Ok(())
}

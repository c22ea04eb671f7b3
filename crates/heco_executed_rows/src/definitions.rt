use crate::answer::{answer_to, breaks, gives};
use heco_lex::Rule;
use std::test::Fail;

const ONE_TO_EIGHT: &[u32] = &[1, 2, 3, 4, 5, 6, 7, 8];

#[test]
fn calls_and_choices_over_vectors(rt: HostRuntime) -> Result<(), Fail> {
    let rows = [
        (
            "def sq(x) = x*x; fn f(in a[8], in b[8], out s) { for i in 0..8 { s += sq(a[i]-b[i]); } }",
            [1, 3, 3, 3, 5, 7, 7, 8].as_slice(),
            [3].as_slice(),
        ),
        (
            "fn f(in a[8], out y[8]) { for i in 0..8 { if i { y[i] = a[i-1]; } else { y[i] = a[7]; } } }",
            [].as_slice(),
            [8, 1, 2, 3, 4, 5, 6, 7].as_slice(),
        ),
    ];
    for (text, second, wanted) in rows {
        let text = format!(in rt.alloc(); "params p8; {text}")?;
        let answer = answer_to(rt.alloc(), text.as_bytes(), 257, &[ONE_TO_EIGHT, second])?;
        assert!(rt; gives(&answer, wanted), "{text}");
    }
    Ok(())
}

#[test]
fn calls_and_choices_and_what_they_give(rt: HostRuntime) -> Result<(), Fail> {
    let rows = [
        ("def sq(x) = x*x;", "y = sq(x+1);", 3, 16),
        ("def sq(x) = x*x; def q(x) = sq(sq(x));", "y = q(x);", 3, 81),
        ("def d(a, b) = a - b;", "y = d(x, 1) - d(1, x);", 5, 8),
        ("def x() = 5;", "y = x();", 0, 5),
        ("def k(x) = 7;", "y = k(x) + x;", 250, 0),
        ("def z(x) = 2147483648;", "y = z(x);", 0, 129),
        (
            "def k(a) = a - 1;",
            "int n = k(3); secret q[3]; q[k(2)] = x; y = q[n-1];",
            9,
            9,
        ),
        ("def two() = 2;", "for i in 0..two() { y += 3; }", 0, 6),
        ("def sum(a, b) = 65536*a*b;", "y = sum(x, 65536);", 3, 3),
        ("", "if 1 { y = 2; } else { y = 3; }", 0, 2),
        ("", "if 0 { y = 2; } else { y = 3; }", 0, 3),
        ("", "if -1 { y = 2; } else { y = 3; }", 0, 2),
        ("", "y = 4; if 0 { y = 2; }", 0, 4),
        (
            "",
            "int n = 1; if n { n = 0; y += 1; } else { y += 2; } y += n;",
            0,
            1,
        ),
        ("", "if 1 { int k = 3; y = k; } int k = 4; y += k;", 0, 7),
        ("", "if 0 { y = 65536*65536; } else { y = 1; }", 0, 1),
    ];
    for (defs, body, x, wanted) in rows {
        let text = format!(in rt.alloc(); "params p8; {defs} fn f(in x, out y) {{ {body} }}")?;
        let answer = answer_to(rt.alloc(), text.as_bytes(), 257, &[&[x]])?;
        assert!(rt; gives(&answer, &[wanted]), "{defs} {body}");
    }
    Ok(())
}

#[test]
fn rules_that_are_broken_within_calls(rt: HostRuntime) -> Result<(), Fail> {
    let rows = [
        (
            "def k(x) = 65536*65536;",
            "y = k(x);",
            (Rule::PublicRange, 2, 17),
        ),
        ("def k(a) = 1;", "y = k(v[8]);", (Rule::IndexRange, 4, 7)),
        (
            "def k(a) = 1;",
            "v[k(1)+7] = 65536*65536;",
            (Rule::IndexRange, 4, 1),
        ),
        (
            "def k(a, b) = a;",
            "y = k(65536*65536, v[8]);",
            (Rule::PublicRange, 4, 12),
        ),
        ("", "if 65536*65536 { } else { }", (Rule::PublicRange, 4, 9)),
        (
            "",
            "if 1 { y = v[8]; } else { y = 65536*65536; }",
            (Rule::IndexRange, 4, 12),
        ),
    ];
    for (defs, body, wanted) in rows {
        let text = format!(in rt.alloc();
            "params p8;\n{defs}\nfn f(in x, out v[8], out y) {{\n{body}\n}}"
        )?;
        let answer = answer_to(rt.alloc(), text.as_bytes(), 257, &[&[1]])?;
        assert!(rt; breaks(&answer, wanted), "{defs} {body}");
    }
    Ok(())
}

#[test]
fn steps_of_calls_and_choices(rt: HostRuntime) -> Result<(), Fail> {
    let rows = [
        ("for i in 0..87381 { y = id(x); }", None),
        (
            "for i in 0..87381 { y = id(x); }\ny = 1;",
            Some((Rule::TooLarge, 5, 1)),
        ),
        ("for i in 0..87381 { if 1 { y = x; } }\n", None),
        (
            "for i in 0..131071 { y = 1; }\ny = id(x);",
            Some((Rule::TooLarge, 5, 5)),
        ),
        ("for i in 0..131070 { y = 1; }\ny = n(x);", None),
        (
            "for i in 0..131070 { y = 1; }\ny = 1; y = n(x);",
            Some((Rule::TooLarge, 2, 27)),
        ),
    ];
    for (body, wanted) in rows {
        let text = format!(in rt.alloc();
            "params p8;\ndef id(x) = x; def n(x) = -x;\nfn f(in x, out y) {{\n{body}\n}}"
        )?;
        let answer = answer_to(rt.alloc(), text.as_bytes(), 257, &[&[1]])?;
        let holds = match wanted {
            None => !matches!(&answer, crate::answer::Answer::At(..)),
            Some(place) => breaks(&answer, place),
        };
        assert!(rt; holds, "{body}");
    }
    Ok(())
}

use crate::answer::{Answer, answer_to, breaks, gives};
use heco_lex::Rule;
use heco_nums::List;
use std::test::Fail;

const T: u32 = 257;

const ONE_TO_EIGHT: &[u32] = &[1, 2, 3, 4, 5, 6, 7, 8];

const ONES: &[u32] = &[1, 1, 1, 1, 1, 1, 1, 1];

const NONE: &[u32] = &[];

#[test]
fn sources_of_vectors_and_what_they_give(rt: HostRuntime) -> Result<(), Fail> {
    let rows = [
        (
            "params p8; fn dot(in a[8], in b[8], out s) { for i in 0..8 { s += a[i]*b[i]; } }",
            ONES,
            [36].as_slice(),
        ),
        (
            "params p8;fn f(in a[8], out y[7]) { for i in 0..7 { y[i] = a[i] + a[i+1]; } }",
            NONE,
            [3, 5, 7, 9, 11, 13, 15].as_slice(),
        ),
        (
            "params p8;fn f(in a[8], out y[7]) { for i in 0..7 { y[i] = a[i+1] - a[i]; } }",
            NONE,
            [1, 1, 1, 1, 1, 1, 1].as_slice(),
        ),
        (
            "params p8;fn f(in a[8], out y) { for i in 0..7 { y += a[i]; } }",
            NONE,
            [28].as_slice(),
        ),
        (
            "params p8;fn f(in a[8], out y) { y = a[6]+a[7]+a[0]; }",
            NONE,
            [16].as_slice(),
        ),
        (
            "params p8;fn f(in a[8], out y) { y = a[0]+a[0]+a[1]; }",
            NONE,
            [4].as_slice(),
        ),
        (
            "params p8;fn f(in a[8], in b[8], out s) { for i in 0..8 { s += (a[i]-b[i])*(a[i]-b[i]); } }",
            [1, 3, 3, 3, 5, 7, 7, 8].as_slice(),
            [3].as_slice(),
        ),
        (
            "params p8;fn f(in a[8], out y) { y = a[2*3-1]; }",
            NONE,
            [6].as_slice(),
        ),
        (
            "params p8;fn f(in a[8], out y) { int p[2] = {3, 1}; y = a[p[0]] - a[p[1]]; }",
            NONE,
            [2].as_slice(),
        ),
        (
            "params p8;fn f(in a[8], out y) { int w[3] = {2, 3, 1}; for i in 0..3 { y += w[i]*a[i]; } }",
            NONE,
            [11].as_slice(),
        ),
    ];
    for (text, second, wanted) in rows {
        let answer = answer_to(rt.alloc(), text.as_bytes(), T, &[ONE_TO_EIGHT, second])?;
        assert!(rt; gives(&answer, wanted), "{text}");
    }
    Ok(())
}

#[test]
fn sources_of_scalars_and_what_they_give(rt: HostRuntime) -> Result<(), Fail> {
    let rows = [
        ("y = x*x; y = y*y; y = y*y;", 3, 136),
        ("y = x*x; y = y*y; y = y*y; y = y*y;", 3, 249),
        ("for i in 3..3 { y = 1; }", 0, 0),
        ("for i in 5..2 { y = 1; }", 0, 0),
        ("for i in 0..1 { y = 1; }", 0, 1),
        ("y = 2147483648;", 0, 129),
        ("for i in 0..0 { y = 9999999999; }", 0, 0),
        ("y = x * -1;", 3, 254),
        ("y = x*65536*65536;", 3, 3),
        ("y = -2147483648 - x;", 0, 128),
        ("y = x * 2 + 1;", 128, 0),
        ("y = -1;", 0, 256),
        ("y = -x;", 1, 256),
        ("y = -(-x);", 7, 7),
        ("int k = 3; k += 2; k *= 4; k -= 1; y = k;", 0, 19),
        ("int k = 3; k = 5; y = k - 6;", 0, 256),
        ("int w[2] = {1, 2}; w[1] += w[0]; y = w[1];", 0, 3),
        ("for i in 0..3 { for j in i..3 { y += 1; } }", 0, 6),
        ("secret q[3]; q[1] = x; y = q[0] + q[1] + q[2] + x;", 5, 10),
        ("secret s = 260; y = s;", 0, 3),
        ("secret s = -1; y = s * s;", 0, 1),
        ("secret s; y = s + 7;", 0, 7),
        ("y = 1000;", 0, 229),
        ("y -= x;", 1, 256),
        ("y *= x; y += 2; y *= x;", 4, 8),
        ("int n = 3; for i in 0..n { n = 10; y += 1; }", 0, 3),
        ("for i in 0..2 { y += i; } for i in 0..3 { y += i; }", 0, 4),
        ("for i in 0..3 { secret s; s += 1; y += s; }", 0, 3),
        ("for i in -2..1 { y += i; }", 0, 254),
        ("y = 10 - 3 - 2;", 0, 5),
        ("y = 2 - x - 1;", 5, 253),
        ("y = (1 - 2) * x;", 4, 253),
        ("y = 2 + 3 * x;", 4, 14),
        ("y = x; x = x;", 9, 9),
        (
            "secret z = x; z = z*z; z = z*z; z = z*z; z = z*z; y = x;",
            3,
            3,
        ),
    ];
    for (body, x, wanted) in rows {
        let text = format!(in rt.alloc(); "params p8;fn f(in x, out y) {{ {body} }}")?;
        let answer = answer_to(rt.alloc(), text.as_bytes(), T, &[&[x]])?;
        assert!(rt; gives(&answer, &[wanted]), "{body}");
    }
    Ok(())
}

#[test]
fn sources_and_the_rule_that_their_execution_breaks(rt: HostRuntime) -> Result<(), Fail> {
    let rows = [
        ("  for i in 0..9 { y += a[i]; }", (Rule::IndexRange, 3, 24)),
        ("int k = 65536 * 65536;", (Rule::PublicRange, 3, 15)),
        ("y = 2147483649;", (Rule::PublicRange, 3, 5)),
        ("y = -2147483648-1;", (Rule::PublicRange, 3, 16)),
        ("int k = 2147483648;\nk += 1;", (Rule::PublicRange, 4, 3)),
        ("int k = -2147483648;\nk -= 1;", (Rule::PublicRange, 4, 3)),
        ("int k = 2147483648;\nk *= 2;", (Rule::PublicRange, 4, 3)),
        (
            "int w[2] = {0, 0};\nw[2] = 65536*65536;",
            (Rule::IndexRange, 4, 1),
        ),
        ("y = 65536*65536*x;", (Rule::PublicRange, 3, 10)),
        ("y = 2147483648*2*x;", (Rule::PublicRange, 3, 15)),
        ("y = a[0-1];", (Rule::IndexRange, 3, 5)),
        ("y = a[8];", (Rule::IndexRange, 3, 5)),
        ("y = a[2147483648+1];", (Rule::PublicRange, 3, 17)),
        ("z[2] = x;", (Rule::IndexRange, 3, 1)),
        ("z[0] = a[9];", (Rule::IndexRange, 3, 8)),
        ("int w[2] = {1, 2147483647+2};", (Rule::PublicRange, 3, 26)),
        ("for i in 0..65536*65536 { }", (Rule::PublicRange, 3, 18)),
        ("secret s = 65536*65536;", (Rule::PublicRange, 3, 17)),
        ("y = x + 1;\ny = a[x];", (Rule::IndexRange, 4, 5)),
    ];
    for (lines, wanted) in rows {
        let text = format!(in rt.alloc();
            "params p8;\nfn f(in x, in a[8], out y, out z[2]) {{\n{lines}\n}}"
        )?;
        let answer = answer_to(rt.alloc(), text.as_bytes(), T, &[&[1], ONE_TO_EIGHT])?;
        assert!(rt; breaks(&answer, wanted), "{lines}");
    }
    Ok(())
}

#[test]
fn outputs_come_in_order_and_start_at_zero(rt: HostRuntime) -> Result<(), Fail> {
    let text = "params p8;fn f(out z[3], in x, out y) { z[1] = x; y = x + 1; }";
    let answer = answer_to(rt.alloc(), text.as_bytes(), T, &[&[4]])?;
    let Answer::Outputs(outputs) = answer else {
        return Err(Fail::from("no outputs"));
    };
    assert_eq!(rt; outputs.rows.len(), 2);
    assert_eq!(rt; outputs.rows.get(0).as_slice(), [0, 4, 0].as_slice());
    assert_eq!(rt; outputs.rows.get(1).as_slice(), [5].as_slice());
    Ok(())
}

#[test]
fn a_box_blur_of_eight_by_eight(rt: HostRuntime) -> Result<(), Fail> {
    let text =
        "params p64; fn blur(in img[64], out o[64]) { for x in 1..7 { for y in 1..7 { for i in 0..3 { for j in 0..3 { o[x*8+y] += img[(x+i-1)*8 + y+j-1]; } } } } }";
    let ones = [1u32; 64];
    let answer = answer_to(rt.alloc(), text.as_bytes(), T, &[ones.as_slice()])?;
    let mut wanted = List::new(rt.alloc());
    wanted.extend_from_slice([0u32; 8].as_slice())?;
    for _ in 0..6 {
        wanted.extend_from_slice([0, 9, 9, 9, 9, 9, 9, 0].as_slice())?;
    }
    wanted.extend_from_slice([0u32; 8].as_slice())?;
    assert!(rt; gives(&answer, wanted.as_slice()));
    Ok(())
}

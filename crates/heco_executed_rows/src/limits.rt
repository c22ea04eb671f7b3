use crate::answer::{answer_to, breaks, gives};
use heco_lex::Rule;
use heco_nums::Bytes;
use std::test::Fail;

const TURNS: &str = "for i in 0..131071 { y = 1; }";

#[test]
fn as_many_steps_as_there_may_be(rt: HostRuntime) -> Result<(), Fail> {
    let rows = [
        ("for i in 0..131071 { y = 1; }\ny = 2;", 2),
        ("for i in 0..87381 { y = -3; }", 254),
        ("for i in 0..87381 { y = a[0+0]; }", 7),
    ];
    for (lines, wanted) in rows {
        let text = format!(in rt.alloc(); "params p8;\nfn f(in a[1], out y) {{\n{lines}\n}}")?;
        let answer = answer_to(rt.alloc(), text.as_bytes(), 257, &[&[7]])?;
        assert!(rt; gives(&answer, &[wanted]), "{lines}");
    }
    Ok(())
}

#[test]
fn one_step_more(rt: HostRuntime) -> Result<(), Fail> {
    let rows = [
        ("y = 2;\ny = 3;", (Rule::TooLarge, 5, 1)),
        ("y = 65536*65536;", (Rule::TooLarge, 4, 10)),
        ("secret q[1];", (Rule::TooLarge, 4, 1)),
        ("secret s;\nint k = 1;", (Rule::TooLarge, 5, 1)),
    ];
    for (lines, wanted) in rows {
        let text = format!(in rt.alloc();
            "params p8;\nfn f(in a[1], out y) {{\n{TURNS}\n{lines}\n}}"
        )?;
        let answer = answer_to(rt.alloc(), text.as_bytes(), 257, &[&[7]])?;
        assert!(rt; breaks(&answer, wanted), "{lines}");
    }
    Ok(())
}

#[test]
fn long_declarations_count_their_elements(rt: HostRuntime) -> Result<(), Fail> {
    let mut text = Bytes::new(rt.alloc());
    text.extend_from_slice(b"params p8;\nfn f(out y) {\n")?;
    for i in 0..63u8 {
        text.extend_from_slice(&[b's', b'e', b'c', b'r', b'e', b't', b' ', b'q'])?;
        text.extend_from_slice(&[b'a' + i / 16, b'a' + i % 16])?;
        text.extend_from_slice(b"[4096];")?;
    }
    let mut passing = Bytes::from_slice(rt.alloc(), text.as_slice())?;
    passing.extend_from_slice(b"y = 5; }")?;
    let answer = answer_to(rt.alloc(), passing.as_slice(), 257, &[])?;
    assert!(rt; gives(&answer, &[5]));
    text.extend_from_slice(b"secret last[4096]; }")?;
    let answer = answer_to(rt.alloc(), text.as_slice(), 257, &[])?;
    assert!(rt; breaks(&answer, (Rule::TooLarge, 3, 63 * 17 + 1)));
    Ok(())
}

use crate::answer::{answer_to, typed, unrolled};
use bumpalo::Bump;
use heco_types::Typed;
use std::alloc::Global;
use std::test::Fail;

// A statement of 63 steps, which makes 124 nodes.
fn put_statement(text: &mut String) -> Result<(), Fail> {
    text.push_str("y = x")?;
    for _ in 0..62 {
        text.push_str("+2")?;
    }
    Ok(text.push(';')?)
}

// The text that a field stands for: `@` is the statement, and `~` is LF.
fn put_field(text: &mut String, field: &str) -> Result<(), Fail> {
    for c in field.chars() {
        match c {
            '@' => put_statement(text)?,
            '~' => text.push('\n')?,
            _ => text.push(c)?,
        }
    }
    Ok(())
}

// The loop counts 1 + 4095 * 64 steps, all but 63 of those that there may be.
fn long_source(alloc: Global, last: &str) -> Result<String, Fail> {
    let mut text = String::new(alloc);
    put_field(
        &mut text,
        "params p8; def n(x) = -x;~fn f(in x, in a[7], out y) {~for i in 0..4095 { @ }~",
    )?;
    put_field(&mut text, last)?;
    put_field(&mut text, "~}")?;
    Ok(text)
}

// How many nodes and roots there are.
fn counts(alloc: Global, t: &Typed) -> Result<(u32, usize), Fail> {
    let arena = Bump::new(alloc);
    match unrolled(alloc, t, &arena) {
        Ok(ir) => Ok((ir.len(), ir.roots().len())),
        Err(_) => Err("refused".into()),
    }
}

fn typed_behind(alloc: Global, last: &str) -> Result<Typed, Fail> {
    let text = long_source(alloc, last)?;
    typed(alloc, text.as_str())
}

fn counts_behind(alloc: Global, last: &str) -> Result<(u32, usize), Fail> {
    let t = typed_behind(alloc, last)?;
    counts(alloc, &t)
}

#[test]
fn as_many_steps_as_there_may_be(rt: HostRuntime) -> Result<(), Fail> {
    assert_eq!(rt; counts_behind(rt.alloc(), "@")?, (8 + 4096 * 124, 1));
    Ok(())
}

// The declaration counts 60 steps, the statement one, its call one, and the definition's operator one.
#[test]
fn as_many_steps_as_there_may_be_with_a_call(rt: HostRuntime) -> Result<(), Fail> {
    let found = counts_behind(rt.alloc(), "secret q[59]; y = n(x);")?;
    assert_eq!(rt; found, (8 + 4095 * 124 + 1, 1));
    Ok(())
}

// What stands behind the loop, and what unrolling answers.
const ROWS: &str = "y = x * a[7];|4:9: IndexRange
y = 1; int k = 65536*65536;|4:21: PublicRange
@~y = 1;|5:1: TooLarge
secret q[60];~y = n(x);|1:23: TooLarge
secret q[61];~y = n(x);|5:5: TooLarge";

fn holds(alloc: Global, row: &str) -> Result<bool, Fail> {
    let (last, wanted) = row.split_once('|').ok_or("no answer")?;
    let text = long_source(alloc, last)?;
    Ok(answer_to(alloc, text.as_str())?.as_str() == wanted)
}

#[test]
fn rules_that_are_broken_behind_many_nodes(rt: HostRuntime) -> Result<(), Fail> {
    for row in ROWS.lines() {
        assert!(rt; holds(rt.alloc(), row)?, "{row}");
    }
    Ok(())
}

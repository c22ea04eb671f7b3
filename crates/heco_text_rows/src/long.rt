use crate::answer::{answer, is_text, put_text};
use heco_nums::{Bytes, Preset};
use std::alloc::Global;
use std::test::Fail;

// The front of a text, how many copies of which byte come behind it, its back, and what reading answers; marks as in
// the other table.
const ROWS: &str = "y = 7 7$x = |5000|0|7|x = 7$y = 7 7$
y = 7 7$x = |5000|9|9|InputValue 2
y = 7 7$x = |5000|9|x|InputText 2
x = 1|5000| |$y = 7 7|x = 1$y = 7 7$
|1000|$|x = 1$y = 7 7$bad|InputText 1003
|70000|$|x 1|InputText 70001
|4194303|$|x|InputText 4194304
x = 1$y = 7 7|4194291| |$|InputLong
x = 1$y = 7 7|4194290| |$|x = 1$y = 7 7$
x 1|4194301| ||InputText 1
x 1|4194302| ||InputLong
|4194304| ||InputMissing 0
|4194305| ||InputLong
|4194304|#||InputMissing 0
|4194303| |#|InputMissing 0";

fn put_copies(text: &mut Bytes, count: &str, part: &str) -> Result<(), Fail> {
    for _ in 0..count.parse::<u32>().map_err(|_| "no number")? {
        put_text(text, part)?;
    }
    Ok(())
}

// The text of the fields of a row up to its answer.
fn repeated(
    alloc: Global,
    front: &str,
    count: &str,
    part: &str,
    back: &str,
) -> Result<Bytes, Fail> {
    let mut text = Bytes::new(alloc);
    put_text(&mut text, front)?;
    put_copies(&mut text, count, part)?;
    put_text(&mut text, back)?;
    Ok(text)
}

fn is_answered(alloc: Global, p: &Preset, row: &str) -> Result<bool, Fail> {
    let mut fields = row.split('|');
    let front = fields.next().ok_or("no front")?;
    let count = fields.next().ok_or("no count")?;
    let byte = fields.next().ok_or("no byte")?;
    let back = fields.next().ok_or("no back")?;
    let want = fields.next().ok_or("no answer")?;
    let text = repeated(alloc, front, count, byte, back)?;
    let found = answer(alloc, p, text.as_slice())?;
    Ok(is_text(found.as_slice(), want))
}

#[test]
fn each_long_text_has_its_answer(rt: HostRuntime) -> Result<(), Fail> {
    let p8 = Preset::by_id(1).ok_or("no preset")?;
    for row in ROWS.lines() {
        assert!(rt; is_answered(rt.alloc(), &p8, row)?, "{row}");
    }
    Ok(())
}

#[test]
fn a_comment_holds_any_byte(rt: HostRuntime) -> Result<(), Fail> {
    let p8 = Preset::by_id(1).ok_or("no preset")?;
    let mut text = Bytes::from_slice(rt.alloc(), b" #")?;
    for c in 0..=255u8 {
        if c != b'\n' {
            text.push(c)?;
        }
    }
    text.extend_from_slice(b"\nx = 1\ny = 2 3")?;
    let found = answer(rt.alloc(), &p8, text.as_slice())?;
    assert!(rt; found.as_slice() == b"x = 1\ny = 2 3\n".as_slice());
    Ok(())
}

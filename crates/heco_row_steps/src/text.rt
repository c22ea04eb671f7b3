use std::alloc::Global;
use std::test::Fail;

// The text twice.
fn twice(alloc: Global, text: &str) -> Result<String, Fail> {
    let mut made = String::from_str(alloc, text)?;
    made.push_str(text)?;
    Ok(made)
}

// Copies of a piece, where the segment is COUNT*PIECE: by the binary digits of the count, so that millions are quick.
fn put_copies(alloc: Global, text: &mut String, count: u32, piece: &str) -> Result<(), Fail> {
    let mut copies = String::from_str(alloc, piece)?;
    let mut left = count;
    for _ in 0..32 {
        if left == 0 {
            return Ok(());
        }
        if left % 2 == 1 {
            text.push_str(copies.as_str())?;
        }
        copies = twice(alloc, copies.as_str())?;
        left /= 2;
    }
    Ok(())
}

// The numbers from the first to the last, each behind a space.
fn put_numbers(alloc: Global, text: &mut String, first: u32, last: u32) -> Result<(), Fail> {
    for number in first..=last {
        text.push_str(format!(in alloc; " {number}")?.as_str())?;
    }
    Ok(())
}

fn put_segment(alloc: Global, text: &mut String, segment: &str) -> Result<(), Fail> {
    if let Some((count, piece)) = segment.split_once('*') {
        return put_copies(alloc, text, count.parse::<u32>()?, piece);
    }
    let (first, last) = segment.split_once("..").ok_or("no segment")?;
    put_numbers(alloc, text, first.parse::<u32>()?, last.parse::<u32>()?)
}

fn meant(c: char) -> char {
    match c {
        '$' => '\n',
        '~' => ';',
        _ => c,
    }
}

fn put_marked(text: &mut String, part: &str) -> Result<(), Fail> {
    for c in part.chars() {
        text.push(meant(c))?;
    }
    Ok(())
}

/// The text that a field of a row stands for. `$` is LF there, and `~` a semicolon. Between two backquotes stands
/// COUNT*PIECE for copies of a piece, or FIRST..LAST for numbers, each behind a space. A field that begins with `f(`
/// has `params p8; fn ` in front.
pub fn text_of(alloc: Global, field: &str) -> Result<String, Fail> {
    let mut text = String::new(alloc);
    if field.starts_with("f(") {
        text.push_str("params p8; fn ")?;
    }
    let mut inside = false;
    for part in field.split('`') {
        if inside {
            put_segment(alloc, &mut text, part)?;
        } else {
            put_marked(&mut text, part)?;
        }
        inside = !inside;
    }
    Ok(text)
}

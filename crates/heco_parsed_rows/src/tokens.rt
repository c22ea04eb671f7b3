use crate::text::text_of;
use heco_lex::{LexErr, tokens};
use std::alloc::Global;
use std::test::Fail;

// A text, and how many tokens it has, or where its first bad byte is.
const ROWS: &str = "|0
 `^~|0
params p8;|3
params p8;@|bad byte 1:11
// @ \\ $|0
x // @~@|bad byte 2:1
a^~`@|bad byte 2:2
0...8|bad byte 1:4
0....8|4
00000000001|2
1234567890|1
12x|2
in int int_ define|4
+=-=*==+ =|6
a/b|bad byte 1:2
a//b/c|1
x.y|bad byte 1:2
(){}[],;|8
\u{e9}|bad byte 1:1";

fn refusal(alloc: Global, e: LexErr) -> Result<String, Fail> {
    match e {
        LexErr::BadByte { at } => Ok(format!(in alloc; "bad byte {}:{}", at.line, at.col)?),
        LexErr::Memory => Err("out of memory".into()),
    }
}

fn answer(alloc: Global, text: &[u8]) -> Result<String, Fail> {
    if text.len() > 1 << 20 {
        return Err("too long".into());
    }
    match tokens(alloc, text) {
        Ok(found) => Ok(format!(in alloc; "{}", found.len())?),
        Err(e) => refusal(alloc, e),
    }
}

fn holds(alloc: Global, row: &str) -> Result<bool, Fail> {
    let (field, wanted) = row.split_once('|').ok_or("no answer")?;
    let text = text_of(alloc, field)?;
    Ok(answer(alloc, text.as_slice())?.as_str() == wanted)
}

#[test]
fn texts_and_their_tokens(rt: HostRuntime) -> Result<(), Fail> {
    for row in ROWS.lines() {
        assert!(rt; holds(rt.alloc(), row)?, "{row}");
    }
    Ok(())
}

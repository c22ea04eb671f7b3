use crate::answer::answer_to;
use std::alloc::Global;
use std::test::Fail;

// How a source begins, what stands before each of 255 names, what stands behind them, and what typing answers.
const ROWS: &str = "params p8;fn f(|in |in b){}|Typed
params p8;fn f(|in |in b,in c){}|Length 1:1809
params p8;fn f(|in |in b,in c[0]){}|Length 1:1809
params p8;fn f(|in |in b,in c[9],in c){}|Length 1:1809
params p8;fn f(|in |in b,in b){}|Redeclared 1:1809
params p8;fn f(|in |in b,out b[0]){}|Redeclared 1:1810
params p8; def d(||b) = b; fn f(){}|Typed
params p8; def d(||b,c) = b; fn f(){}|Length 1:1040
params p8; def d(||b,b) = b; fn f(){}|Redeclared 1:1040";

// A parameter whose name is q and two letters.
fn put_parameter(text: &mut String, word: &str, number: u8) -> Result<(), Fail> {
    text.push_str(word)?;
    text.push('q')?;
    text.push(char::from(b'a' + number / 16))?;
    text.push(char::from(b'a' + number % 16))?;
    Ok(text.push(',')?)
}

fn source_of(alloc: Global, start: &str, word: &str, last: &str) -> Result<String, Fail> {
    let mut text = String::from_str(alloc, start)?;
    for number in 0..255u8 {
        put_parameter(&mut text, word, number)?;
    }
    text.push_str(last)?;
    Ok(text)
}

fn holds(alloc: Global, row: &str) -> Result<bool, Fail> {
    let (start, rest) = row.split_once('|').ok_or("no start")?;
    let (word, rest) = rest.split_once('|').ok_or("no word")?;
    let (last, wanted) = rest.split_once('|').ok_or("no answer")?;
    let text = source_of(alloc, start, word, last)?;
    Ok(answer_to(alloc, text.as_str())?.as_str() == wanted)
}

#[test]
fn the_257th_parameter(rt: HostRuntime) -> Result<(), Fail> {
    for row in ROWS.lines() {
        assert!(rt; holds(rt.alloc(), row)?, "{row}");
    }
    Ok(())
}

use heco_row_steps::{Bench, text_of};
use std::alloc::Global;
use std::test::Fail;

// The words, the failing call of the store and of standard output (0 for none), the status, which of the files k, e, s
// and v are there, and the line on the error stream, with $ for LF.
const ROWS: &str = "draw dot 1 k e|0|0|0|ke|
draw 7 7 k e|0|0|0|ke|
draw five 18446744073709551615 k e|0|0|0|ke|
draw dot 007 k e|0|0|0|ke|
show cut|0|0|3||cut: Malformed at 102$
draw cut 1 k e|0|0|3||cut: Malformed at 102$
keys cut none s v|0|0|3||cut: Malformed at 102$
keys dot copy s v|0|0|3||copy: Length at 35$
show|0|0|2||usage: heco COMMAND WORDS$
show dot dot|0|0|2||usage: heco COMMAND WORDS$
draw dot 18446744073709551616 k e|0|0|2||usage: heco COMMAND WORDS$
draw dot 000000000000000000001 k e|0|0|2||usage: heco COMMAND WORDS$
draw dot +7 k e|0|0|2||usage: heco COMMAND WORDS$
draw dot 7x k e|0|0|2||usage: heco COMMAND WORDS$
draw dot 7 k|0|0|2||usage: heco COMMAND WORDS$
draw dot 7 k k|0|0|2||usage: heco COMMAND WORDS$
draw dot 7 dot e|0|0|2||usage: heco COMMAND WORDS$
draw dot 7 k dot|0|0|2||usage: heco COMMAND WORDS$
keys dot k dot v|0|0|2||usage: heco COMMAND WORDS$
keys c k c v|0|0|2||usage: heco COMMAND WORDS$
keys dot k s s|0|0|2||usage: heco COMMAND WORDS$
show no|0|0|4||no: read fault$
show dot|1|0|4||dot: read fault$
show dot|0|1|4||standard output: write fault$
draw dot 1 k e|1|0|4||dot: read fault$
draw dot 1 k e|2|0|4||k: write fault$
draw dot 1 k e|3|0|4|k|e: write fault$";

// Which of the files are there.
fn there(alloc: Global, bench: &Bench) -> Result<String, Fail> {
    let mut found = String::new(alloc);
    for name in ["k", "e", "s", "v"] {
        if bench.file(name).is_some() {
            found.push_str(name)?;
        }
    }
    Ok(found)
}

// Whether the words of a row leave what the row says.
fn holds(alloc: Global, row: &str) -> Result<bool, Fail> {
    let mut fields = row.split('|');
    let words = fields.next().ok_or("no words")?;
    let store_fails = fields.next().ok_or("no call")?.parse::<u64>()?;
    let out_fails = fields.next().ok_or("no call")?.parse::<u64>()?;
    let status = fields.next().ok_or("no status")?;
    let files = fields.next().ok_or("no files")?;
    let line = text_of(alloc, fields.next().ok_or("no line")?)?;
    let mut bench = Bench::new(alloc, store_fails, out_fails, 0)?;
    bench.step(alloc, words)?;
    let want = format!(in alloc; "{status}|{line}|")?;
    Ok(bench.left(alloc)?.as_str() == want.as_str() && there(alloc, &bench)?.as_str() == files)
}

#[test]
fn each_row_leaves_what_it_says(rt: HostRuntime) -> Result<(), Fail> {
    for row in ROWS.lines() {
        assert!(rt; holds(rt.alloc(), row)?, "{row}");
    }
    Ok(())
}

const LISTED: &str =
    "0||params p8\nin a[8]\nin b[8]\n2 Mul 0 1 : 97975829\n3 Relin 2 : 98691317\n4 Turn 1 3 : 99406805\n5 Add 3 4 : 198098122\n6 Turn 2 5 : 198813610\n7 Add 5 6 : 396911732\n8 Turn 4 7 : 397627220\n9 Add 7 8 : 794538952\nout s[1] = 9@0\nparams p8\nin x[1]\nout y[1] = 0@0\n";

#[test]
fn listings_are_printed(rt: HostRuntime) -> Result<(), Fail> {
    let mut bench = Bench::new(rt.alloc(), 0, 0, 0)?;
    bench.steps(rt.alloc(), "show dot;show copy")?;
    assert_eq!(rt; bench.left(rt.alloc())?.as_str(), LISTED);
    Ok(())
}

use crate::source::source_of;
use heco_compile::{CompileErr, compile};
use std::alloc::Global;
use std::test::Fail;

// The source, and the first of its elements that is too deep: the number of its output, its place there, and its bound.
const ROWS: &str = "f(in x, out y) { y = x*x; y = y*y; y = y*y; y = y*y; }|0|0|863747166108134984309
f(in x, out a[2], out y[5]) { secret z = x*x; z = z*z; z = z*z; a[0] = z; y[1] = x; y[3] = z*z; y[4] = z*z; }|1|3|863747166108134984309
f(in x, out y) { secret z = x*x; z = z*z; z = z*z; y = z*z + (z*2)*(z*2); }|0|0|863747166108134984309
f(in x, out y) { secret z = x*x; z = z*z; z = z*z; y = (z*2)*(z*2) + z*z; }|0|0|1727494332216269247733
f(in x, out y) { secret z = x*x; z = z*z; z = z*z; y = z*z + 1; }|0|0|863747166108134984309";

// The refusal, in the words of a row.
fn refusal_of(alloc: Global, source: &str) -> Result<String, Fail> {
    match compile(alloc, source.as_bytes()) {
        Err(CompileErr::TooDeep { out, index, bound }) => {
            Ok(format!(in alloc; "{out}|{index}|{bound}")?)
        }
        Err(_) => Err("refused otherwise".into()),
        Ok(_) => Err("accepted".into()),
    }
}

fn holds(alloc: Global, row: &str) -> Result<bool, Fail> {
    let (field, refusal) = row.split_once('|').ok_or("no refusal")?;
    let source = source_of(alloc, field)?;
    Ok(refusal_of(alloc, source.as_str())?.as_str() == refusal)
}

#[test]
fn each_source_is_refused_as_its_row_says(rt: HostRuntime) -> Result<(), Fail> {
    for row in ROWS.lines() {
        assert!(rt; holds(rt.alloc(), row)?, "{row}");
    }
    Ok(())
}

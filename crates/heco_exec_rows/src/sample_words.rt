use heco_row_steps::row_holds;
use std::test::Fail;

// Rows of steps: words that ask for nothing, and a standard output that fails.
const ROWS: &str = "0|0|sample x|2|usage: heco COMMAND WORDS$|
0|0|sample -1|2|usage: heco COMMAND WORDS$|
0|0|sample 18446744073709551616|2|usage: heco COMMAND WORDS$|
0|0|sample 000000000000000000007|2|usage: heco COMMAND WORDS$|
0|0|sample 7 7|2|usage: heco COMMAND WORDS$|
0|0|sample|2|usage: heco COMMAND WORDS$|
0|1|sample 7|4|standard output: write fault$|";

#[test]
fn words_are_judged(rt: HostRuntime) -> Result<(), Fail> {
    for row in ROWS.lines() {
        assert!(rt; row_holds(rt.alloc(), row, "")?, "{row}");
    }
    Ok(())
}

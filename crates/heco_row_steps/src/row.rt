use crate::bench::Bench;
use crate::text::text_of;
use std::alloc::Global;
use std::test::Fail;

fn take_row(alloc: Global, bench: &mut Bench, steps: &str, start: &str) -> Result<(), Fail> {
    match steps.strip_prefix("start;") {
        None => bench.steps(alloc, steps),
        Some(steps) => {
            bench.steps(alloc, start)?;
            bench.steps(alloc, steps)
        }
    }
}

/// Whether the steps of a row leave what it says. Its fields, with `|` between, are the failing call of the store and
/// that of standard output (0 for none), the steps, the status of the last command, the line on the error stream and
/// the printed text. `start` as a row's first step stands for those steps.
pub fn row_holds(alloc: Global, row: &str, start: &str) -> Result<bool, Fail> {
    let mut fields = row.splitn(4, '|');
    let store_fails = fields.next().ok_or("no call")?.parse::<u64>()?;
    let out_fails = fields.next().ok_or("no call")?.parse::<u64>()?;
    let steps = fields.next().ok_or("no steps")?;
    let want = text_of(alloc, fields.next().ok_or("no status")?)?;
    let mut bench = Bench::new(alloc, store_fails, out_fails, 0)?;
    take_row(alloc, &mut bench, steps, start)?;
    Ok(bench.left(alloc)?.as_str() == want.as_str())
}

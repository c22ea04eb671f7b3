use crate::bench::Bench;
use std::alloc::Global;
use std::test::Fail;

/// A command that writes five files, behind steps that ran it before and put the file `old` where it writes.
#[derive(Clone, Copy, Debug)]
pub struct Faulty {
    /// The steps before; the files that they made are `c0`, `s0`, `v0`, `t0` and `r0`.
    pub before: &'static str,
    /// So many calls of the store they make, and one of standard output.
    pub calls: u64,
    /// What they print.
    pub printed: &'static str,
    /// The command, which writes `c`, `s`, `v`, `t` and `r`.
    pub command: &'static str,
}

fn mark(bench: &Bench, name: &str, new: &str) -> char {
    let file = bench.file(name);
    if file == bench.file("old") {
        return 'o';
    }
    if file == bench.file(new) {
        return 'n';
    }
    '?'
}

fn marks(alloc: Global, bench: &Bench) -> Result<String, Fail> {
    let mut made = String::new(alloc);
    made.push(mark(bench, "c", "c0"))?;
    made.push(mark(bench, "s", "s0"))?;
    made.push(mark(bench, "v", "v0"))?;
    made.push(mark(bench, "t", "t0"))?;
    made.push(mark(bench, "r", "r0"))?;
    Ok(made)
}

// The answer, the files and what is left.
fn summary(alloc: Global, bench: &Bench) -> Result<String, Fail> {
    let left = bench.left(alloc)?;
    let files = marks(alloc, bench)?;
    Ok(format!(in alloc; "{:?}|{files}|{left}", bench.outcome())?)
}

impl Faulty {
    // The bench with that failing call, and a failing error stream or not, after the command.
    fn run(&self, alloc: Global, call: u64, err_fails: u64) -> Result<Bench, Fail> {
        let store_fails = if call == 0 {
            0
        } else {
            call.wrapping_add(self.calls)
        };
        let out_fails = if call == 0 { 2 } else { 0 };
        let mut bench = Bench::new(alloc, store_fails, out_fails, err_fails)?;
        bench.steps(alloc, self.before)?;
        bench.step(alloc, self.command)?;
        Ok(bench)
    }

    /// Whether the command ends as the row says; with a failing error stream it does so without a line. The fields of a
    /// row, with `|` between, are the call of the store that fails in the command, or 0 for the one of standard output,
    /// the answer, the line on the error stream, and of the five files in turn whether it is new or old.
    pub fn holds(&self, alloc: Global, row: &str) -> Result<bool, Fail> {
        let mut fields = row.split('|');
        let call = fields.next().ok_or("no call")?.parse::<u64>()?;
        let answer = fields.next().ok_or("no answer")?;
        let line = fields.next().ok_or("no line")?;
        let files = fields.next().ok_or("no files")?;
        let printed = self.printed;
        let told = summary(alloc, &self.run(alloc, call, 0)?)?;
        let silent = summary(alloc, &self.run(alloc, call, 1)?)?;
        let want_told = format!(in alloc; "{answer}|{files}|4|{line}\n|{printed}")?;
        let want_silent = format!(in alloc; "{answer}|{files}|4||{printed}")?;
        Ok(told.as_str() == want_told.as_str() && silent.as_str() == want_silent.as_str())
    }
}

use crate::asked::{AskedSink, AskedStore};
use heco_nums::{Bytes, List};
use heco_outside::{MemSink, MemStore};
use heco_peep::Pass;
use heco_row_steps::words_of;
use heco_sched::{First, Picker};
use heco_top::heco;
use std::alloc::Global;
use std::test::Fail;

const SOURCE: &str =
    "params p8; fn dot(in a[8], in b[8], out s) { for i in 0..8 { s += a[i]*b[i]; } }";

const INPUT: &str = "a = 1 2 3 4 5 6 7 8\nb = 1 1 1 1 1 1 1 1\n";

// Commands one after another over the same files: the words, each read with the number of bytes asked for, and how many
// pieces were printed. A limit is one byte more than the longest file that is accepted, so that a longer one is seen.
const ROWS: &str = "plain f i|f 1048577$i 4194305$|1
plain f none|f 1048577$none 4194305$|0
compile f c|f 1048577$|0
show c|c 536870912$|1
draw c 7 k e|c 536870912$|0
keys c k s v|c 536870912$k 16865$|0
encrypt c v e i t|c 536870912$v 59672$e 97$i 4194305$|0
run c v t r|c 536870912$v 59672$t 523$|0
decrypt c s r|c 536870912$s 23$r 267$|1
measure c s v t|c 536870912$s 23$v 59672$t 523$|1
exec f i k e c2 s2 v2 t2 r2|f 1048577$i 4194305$k 16865$e 97$|1
exec f none k e c2 s2 v2 t2 r2|f 1048577$none 4194305$|0
show f|f 536870912$|0
plain f f||0";

fn files(alloc: Global) -> Result<AskedStore, Fail> {
    let mut files = MemStore::new(alloc, List::new(alloc));
    files.put("f", SOURCE.as_bytes())?;
    files.put("i", INPUT.as_bytes())?;
    Ok(AskedStore::new(alloc, files))
}

// How many pieces the command prints.
fn pieces(alloc: Global, words: &str, store: &mut AskedStore) -> Result<u64, Fail> {
    let words = words_of(alloc, words)?;
    let mut out = AskedSink::new(alloc);
    let mut err = MemSink::new(alloc, List::new(alloc));
    let mut picker: Box<dyn Picker> = Box::new(alloc, First)?;
    let mut passes: Vec<Box<dyn Pass>> = Vec::new(alloc);
    heco(
        alloc,
        words.as_slice(),
        store,
        &mut out,
        &mut err,
        &mut picker,
        &mut passes,
    );
    Ok(out.pieces)
}

// Whether the command asks for what the row says.
fn holds(alloc: Global, row: &str, store: &mut AskedStore) -> Result<bool, Fail> {
    let mut fields = row.split('|');
    let words = fields.next().ok_or("no words")?;
    let reads = fields.next().ok_or("no reads")?;
    let printed = fields.next().ok_or("no pieces")?.parse::<u64>()?;
    let count = pieces(alloc, words, store)?;
    let asked: Bytes = store.take_reads(alloc);
    Ok(count == printed && asked.as_slice() == reads.as_bytes())
}

#[test]
fn each_command_asks_for_its_files_and_prints_once(rt: HostRuntime) -> Result<(), Fail> {
    let mut store = files(rt.alloc())?;
    for row in ROWS.lines() {
        assert!(rt; holds(rt.alloc(), row, &mut store)?, "{row}");
    }
    Ok(())
}

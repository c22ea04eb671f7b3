use crate::files::{answer, file_of};
use heco_nums::{Bytes, Memory};
use std::alloc::Global;
use std::test::Fail;

// A file; where its bytes are replaced, from and to, and by which; and what reading answers. The last rows change nothing.
const SPLICED: &str = "dot 42 43 00 malformed at 41
dot 39 40 03 malformed at 36
dot 39 40 00 malformed at 36
dot 101 102 02 malformed at 98
dot 103 104 08 malformed at 102
dot 104 104 00 malformed at 104
dot 4 5 02 malformed at 88
dot 4 5 03 malformed at 26
dot 4 5 04 malformed at 4
dot 26 27 09 malformed at 26
dot 4 5 00 malformed at 4
dot 5 6 06 malformed at 5
dot 6 8 0101 malformed at 6
dot 11 12 00 malformed at 8
dot 11 13 02696e malformed at 12
dot 19 20 61 malformed at 19
dot 22 26 02000000 malformed at 22
dot 30 31 02 malformed at 27
dot 40 47 060000000000000003 malformed at 41
dot 47 48 03 malformed at 47
dot 89 90 ff malformed at 88
dot 94 95 61 malformed at 94
dot 97 98 02 malformed at 97
dot 15 20 0000000161 malformed at 19
dot 13 15 0009 malformed at 13
copy 18 19 01 malformed at 19
copy 4 5 02 malformed at 19
copy 4 5 03 malformed at 15
less 4 5 01 malformed at 26
less 4 5 03 malformed at 26
less 26 27 09 malformed at 26
less 26 27 02 malformed at 35
less 27 31 00000002 malformed at 27
less 31 35 00000002 malformed at 31
less 35 37 00ff malformed at 35
weighs 15 19 00000000 malformed at 15
weighs 15 19 00000101 malformed at 15
weighs 19 23 00000101 malformed at 19
weighs 47 51 00000101 malformed at 47
weighs 56 60 00000001 malformed at 56
weighs 60 64 00000001 malformed at 60
weighs 4 5 02 malformed at 19
weighs 55 56 0a malformed at 55
weighs 64 66 0100 malformed at 64
wide 19 23 00010001 malformed at 19
squares 0 1 48 the bound 863747166108134268821 of gate 6 passes
heavy 0 1 48 the bound 5121408154466318750 of gate 4 passes
copy 0 1 48 read
less 0 1 48 read
weighs 0 1 48 read
plain 0 1 48 read
idle 0 1 48 read
wide 0 1 48 read
weighs 19 23 00000100 read";

// A file, and where its fields begin.
const STARTS: &str =
    "dot 0 4 5 6 8 12 13 15 19 20 22 26 27 31 35 36 40 41 43 47 48 52 56 57 59 63 64 68 72 73 75 79 80 84 88 90 94 95 97 98 102
weighs 0 4 5 6 8 12 13 15 19 23 27 31 35 39 43 47 51 55 56 60 64 66 70 71 73 74 78 80 81 85";

fn front(file: &[u8], end: usize) -> &[u8] {
    file.split_at(end.min(file.len())).0
}

fn back(file: &[u8], start: usize) -> &[u8] {
    file.split_at(start.min(file.len())).1
}

fn spliced(
    alloc: Global,
    file: &[u8],
    from: usize,
    to: usize,
    with: &[u8],
) -> Result<Bytes, Memory> {
    let mut other = Bytes::from_slice(alloc, front(file, from))?;
    other.extend_from_slice(with)?;
    other.extend_from_slice(back(file, to))?;
    Ok(other)
}

// The file of a row, its bytes replaced.
fn made(alloc: Global, name: &str, from: &str, to: &str, with: &str) -> Result<Bytes, Fail> {
    let file = file_of(alloc, name)?;
    let with = hex::decode(alloc, with)?;
    let (from, to) = (from.parse::<usize>()?, to.parse::<usize>()?);
    Ok(spliced(alloc, file.as_slice(), from, to, with.as_slice())?)
}

fn answer_to(alloc: Global, name: &str, from: &str, to: &str, with: &str) -> Result<String, Fail> {
    let file = made(alloc, name, from, to, with)?;
    answer(alloc, file.as_slice())
}

fn holds(alloc: Global, row: &str) -> Result<bool, Fail> {
    let mut words = row.splitn(5, ' ');
    let name = words.next().ok_or("no file")?;
    let from = words.next().ok_or("no place")?;
    let to = words.next().ok_or("no place")?;
    let with = words.next().ok_or("no bytes")?;
    Ok(answer_to(alloc, name, from, to, with)?.as_str() == words.next().unwrap_or("no answer"))
}

#[test]
fn each_broken_file_is_refused_at_its_first_broken_field(rt: HostRuntime) -> Result<(), Fail> {
    for row in SPLICED.lines() {
        assert!(rt; holds(rt.alloc(), row)?, "{row}");
    }
    Ok(())
}

// The answer of a file that is cut there: the last field that begins no later.
fn cut_at(alloc: Global, starts: &str, len: usize) -> Result<String, Fail> {
    let mut last = 0;
    for word in starts.split(' ') {
        let start = word.parse::<usize>()?;
        if start <= len {
            last = start;
        }
    }
    Ok(format!(in alloc; "malformed at {last}")?)
}

fn is_cut(alloc: Global, file: &[u8], starts: &str, len: usize) -> Result<bool, Fail> {
    let found = answer(alloc, front(file, len))?;
    Ok(found.as_str() == cut_at(alloc, starts, len)?.as_str())
}

fn is_cut_everywhere(alloc: Global, row: &str) -> Result<bool, Fail> {
    let (name, starts) = row.split_once(' ').ok_or("no file")?;
    let file = file_of(alloc, name)?;
    for len in 0..file.len() {
        if !is_cut(alloc, file.as_slice(), starts, len)? {
            return Ok(false);
        }
    }
    Ok(true)
}

#[test]
fn each_shorter_length_is_refused_at_the_field_that_is_cut(rt: HostRuntime) -> Result<(), Fail> {
    for row in STARTS.lines() {
        assert!(rt; is_cut_everywhere(rt.alloc(), row)?, "{row}");
    }
    Ok(())
}

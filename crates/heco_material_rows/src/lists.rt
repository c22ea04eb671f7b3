use heco_material::{draw_enc, draw_keys, draw_values};
use heco_nums::{KeyNeeds, List, Memory, Preset};
use std::alloc::Global;
use std::test::Fail;

// A list of what is drawn without switch keys, its preset and its seed, and its numbers, `?` for any and `+` for any
// but 0. `values` are eight, and `u` has 16 numbers for each input, of which there is one.
const ROWS: &str = "s 1 7 0 0 -1 0 0 0 0 0 0 0 0 -1 -1 0 1 0
a 1 7 173583597375103822 41468193408079280 ? ? ? ? ? ? ? ? ? ? ? ? ? ?
e 1 7 2 -2 2 -2 0 ? ? ? ? ? ? ? ? ? ? ?
switches 1 7 0
u 1 7 0 0 0 0 0 0 1 0 1 0 -1 0 0 0 -1 0
s 1 2 ? ? ? + ? ? -1 ? ? + ? ? ? ? ? ?
values 5 7 12542 62944 645 19026 3433 62705 47557 5588";

fn of_places(alloc: Global, list: &[i8]) -> Result<Vec<i64>, Fail> {
    let mut numbers = Vec::new(alloc);
    for x in list {
        numbers.push(i64::from(*x))?;
    }
    Ok(numbers)
}

fn of_words(alloc: Global, list: &[u64]) -> Result<Vec<i64>, Fail> {
    let mut numbers = Vec::new(alloc);
    for x in list {
        numbers.push(i64::try_from(*x).map_err(|_| "a word above 2^63")?)?;
    }
    Ok(numbers)
}

fn of_values(alloc: Global, p: &Preset, seed: u64) -> Result<Vec<i64>, Fail> {
    let mut numbers = Vec::new(alloc);
    for x in draw_values(alloc, p, seed, 8)?.as_slice() {
        numbers.push(i64::from(*x))?;
    }
    Ok(numbers)
}

fn of_keys(alloc: Global, p: &Preset, seed: u64, list: &str) -> Result<Vec<i64>, Fail> {
    let needs = KeyNeeds {
        relin: false,
        turns: List::new(alloc),
    };
    let k = draw_keys(alloc, p, &needs, seed)?;
    match list {
        "s" => of_places(alloc, k.s.as_slice()),
        "a" => of_words(alloc, k.a.as_slice()),
        "e" => of_places(alloc, k.e.as_slice()),
        _ => of_words(alloc, [k.switch.len() as u64].as_slice()),
    }
}

fn of_encryptions(alloc: Global, p: &Preset, seed: u64) -> Result<Vec<i64>, Fail> {
    let mut numbers = Vec::new(alloc);
    for row in draw_enc(alloc, p, 1, seed)?.rows.as_slice() {
        numbers.extend_from_slice(of_places(alloc, row.u.as_slice())?.as_slice())?;
    }
    Ok(numbers)
}

fn drawn(alloc: Global, list: &str, p: &Preset, seed: u64) -> Result<Vec<i64>, Fail> {
    match list {
        "u" => of_encryptions(alloc, p, seed),
        "values" => of_values(alloc, p, seed),
        _ => of_keys(alloc, p, seed, list),
    }
}

fn fits(x: i64, word: &str) -> Result<bool, Fail> {
    match word {
        "?" => Ok(true),
        "+" => Ok(x != 0),
        _ => Ok(x == word.parse::<i64>()?),
    }
}

fn holds(alloc: Global, row: &str) -> Result<bool, Fail> {
    let mut words = row.split(' ');
    let list = words.next().ok_or("no list")?;
    let p = Preset::by_id(words.next().ok_or("no preset")?.parse::<u8>()?).ok_or("no preset")?;
    let seed = words.next().ok_or("no seed")?.parse::<u64>()?;
    for x in drawn(alloc, list, &p, seed)?.as_slice() {
        if !fits(*x, words.next().unwrap_or("no number"))? {
            return Ok(false);
        }
    }
    Ok(words.next().is_none())
}

#[test]
fn each_drawn_list_is_the_written_one(rt: HostRuntime) -> Result<(), Fail> {
    for row in ROWS.lines() {
        assert!(rt; holds(rt.alloc(), row)?, "{row}");
    }
    Ok(())
}

use crate::counted::Counted;
use crate::files::{circuits, sink, words_of};
use crate::pickers::{PickerName, picker_named};
use crate::text::text_of;
use crate::watching::Watching;
use heco_outside::{MemSink, MemStore};
use heco_peep::{NegPass, Pass, ScalePass, SubPass};
use heco_sched::{Drawn, First, Last, Picker};
use heco_top::{Outcome, heco};
use sha2::{Digest, Sha256};
use std::alloc::Global;
use std::cell::Cell;
use std::rc::Rc;
use std::test::Fail;

/// Files in memory with both streams, a picker, whether the program's passes run, and how the last command ended.
#[derive(Drop)]
pub struct Bench {
    store: MemStore,
    out: MemSink,
    err: MemSink,
    picker: PickerName,
    usual: bool,
    outcome: Outcome,
}

// The bytes with these from that place on, whatever stood there.
fn written_over(alloc: Global, file: &[u8], at: usize, new: &[u8]) -> Result<Vec<u8>, Fail> {
    if at > file.len() {
        return Err("no such place".into());
    }
    let (front, rest) = file.split_at(at);
    let mut bytes = Vec::from_slice(alloc, front)?;
    bytes.extend_from_slice(new)?;
    if new.len() < rest.len() {
        bytes.extend_from_slice(rest.split_at(new.len()).1)?;
    }
    Ok(bytes)
}

fn written(bytes: &[u8]) -> Result<&str, Fail> {
    Ok(std::str::from_utf8(bytes).map_err(|_| "no text")?)
}

fn begins_with(alloc: Global, file: &[u8], start: &str) -> Result<bool, Fail> {
    let digest = hex::encode(alloc, Sha256::digest(file).as_slice())?;
    Ok(digest.as_str().starts_with(start))
}

impl Bench {
    /// The circuits, where those calls of the store, of standard output and of the error stream fail, none for 0.
    pub fn new(
        alloc: Global,
        store_fails: u64,
        out_fails: u64,
        err_fails: u64,
    ) -> Result<Bench, Fail> {
        Ok(Bench {
            store: circuits(alloc, store_fails)?,
            out: sink(alloc, out_fails)?,
            err: sink(alloc, err_fails)?,
            picker: PickerName::First,
            usual: true,
            outcome: Outcome::Ok,
        })
    }

    /// The file of that name.
    pub fn file(&self, name: &str) -> Option<&[u8]> {
        self.store.file(name)
    }

    /// How the last command ended.
    pub fn outcome(&self) -> Outcome {
        self.outcome
    }

    fn copy_of(&self, alloc: Global, name: &str) -> Result<Vec<u8>, Fail> {
        let file = self.store.file(name).ok_or("no file")?;
        Ok(Vec::from_slice(alloc, file)?)
    }

    /// Sets a file.
    pub fn put(&mut self, name: &str, bytes: &[u8]) -> Result<(), Fail> {
        self.store.put(name, bytes)?;
        Ok(())
    }

    /// Sets a file to the text that a field of a row stands for. The field `none` stands for a file that is absent.
    pub fn put_field(&mut self, alloc: Global, name: &str, field: &str) -> Result<(), Fail> {
        if field == "none" {
            return Ok(());
        }
        let text = text_of(alloc, field)?;
        self.put(name, text.as_str().as_bytes())
    }

    // Writes hexadecimal bytes over a file: PLACE BYTES.
    fn set(&mut self, alloc: Global, name: &str, rest: &str) -> Result<(), Fail> {
        let (at, new) = rest.split_once(' ').ok_or("no bytes")?;
        let file = self.copy_of(alloc, name)?;
        let new = hex::decode(alloc, new)?;
        let bytes = written_over(alloc, file.as_slice(), at.parse::<usize>()?, new.as_slice())?;
        self.put(name, bytes.as_slice())
    }

    fn cut(&mut self, alloc: Global, name: &str, length: &str) -> Result<(), Fail> {
        let mut file = self.copy_of(alloc, name)?;
        file.truncate(length.parse::<usize>()?);
        self.put(name, file.as_slice())
    }

    fn make(&mut self, alloc: Global, verb: &str, name: &str, rest: &str) -> Result<(), Fail> {
        if verb == "put" {
            let text = text_of(alloc, rest)?;
            return self.put(name, text.as_str().as_bytes());
        }
        if verb == "hex" {
            let text = text_of(alloc, rest)?;
            let bytes = hex::decode(alloc, text.as_str())?;
            return self.put(name, bytes.as_slice());
        }
        if verb == "zeros" {
            let bytes = vec![in alloc; 0u8; rest.parse::<usize>()?]?;
            return self.put(name, bytes.as_slice());
        }
        let bytes = self.copy_of(alloc, rest)?;
        self.put(name, bytes.as_slice())
    }

    // Copies of a file behind another: FROM COUNT.
    fn append(&mut self, alloc: Global, name: &str, rest: &str) -> Result<(), Fail> {
        let (from, count) = rest.split_once(' ').ok_or("no count")?;
        let piece = self.copy_of(alloc, from)?;
        let mut file = self.copy_of(alloc, name)?;
        for _ in 0..count.parse::<u32>()? {
            file.extend_from_slice(piece.as_slice())?;
        }
        self.put(name, file.as_slice())
    }

    // Whether a file is the other one, has that length, or a digest that begins so.
    fn is_so(&self, alloc: Global, verb: &str, name: &str, rest: &str) -> Result<bool, Fail> {
        let file = self.store.file(name).ok_or("no file")?;
        if verb == "same" {
            return Ok(Some(file) == self.store.file(rest));
        }
        if verb == "length" {
            return Ok(file.len() == rest.parse::<usize>()?);
        }
        begins_with(alloc, file, rest)
    }

    fn expect(&self, alloc: Global, verb: &str, name: &str, rest: &str) -> Result<(), Fail> {
        if self.is_so(alloc, verb, name, rest)? {
            return Ok(());
        }
        Err("a file is not as it should be".into())
    }

    // As the program does it.
    fn by_usual(&mut self, alloc: Global, words: &[String]) -> Result<Outcome, Fail> {
        let mut picker: Box<dyn Picker> = Box::new(alloc, First)?;
        let mut passes: Vec<Box<dyn Pass>> = Vec::new(alloc);
        passes.push(Box::new(alloc, SubPass { done: 0 })?)?;
        passes.push(Box::new(alloc, NegPass { done: 0 })?)?;
        passes.push(Box::new(alloc, ScalePass { done: 0 })?)?;
        let (store, out, err) = (&mut self.store, &mut self.out, &mut self.err);
        Ok(heco(alloc, words, store, out, err, &mut picker, &mut passes))
    }

    fn by_first(&mut self, alloc: Global, words: &[String]) -> Result<Outcome, Fail> {
        let mut picker: Box<dyn Picker> = Box::new(alloc, First)?;
        let mut passes: Vec<Box<dyn Pass>> = Vec::new(alloc);
        let (store, out, err) = (&mut self.store, &mut self.out, &mut self.err);
        Ok(heco(alloc, words, store, out, err, &mut picker, &mut passes))
    }

    fn by_last(&mut self, alloc: Global, words: &[String]) -> Result<Outcome, Fail> {
        let mut picker: Box<dyn Picker> = Box::new(alloc, Last)?;
        let mut passes: Vec<Box<dyn Pass>> = Vec::new(alloc);
        let (store, out, err) = (&mut self.store, &mut self.out, &mut self.err);
        Ok(heco(alloc, words, store, out, err, &mut picker, &mut passes))
    }

    fn by_drawn(&mut self, alloc: Global, words: &[String]) -> Result<Outcome, Fail> {
        let mut picker: Box<dyn Picker> = Box::new(alloc, Drawn { state: 7 })?;
        let mut passes: Vec<Box<dyn Pass>> = Vec::new(alloc);
        let (store, out, err) = (&mut self.store, &mut self.out, &mut self.err);
        Ok(heco(alloc, words, store, out, err, &mut picker, &mut passes))
    }

    fn by_counted(
        &mut self,
        alloc: Global,
        words: &[String],
        calls: Rc<Cell<u32>>,
    ) -> Result<Outcome, Fail> {
        let mut picker: Box<dyn Picker> = Box::new(alloc, Counted { calls })?;
        let mut passes: Vec<Box<dyn Pass>> = Vec::new(alloc);
        let (store, out, err) = (&mut self.store, &mut self.out, &mut self.err);
        Ok(heco(alloc, words, store, out, err, &mut picker, &mut passes))
    }

    fn by_watched(
        &mut self,
        alloc: Global,
        words: &[String],
        windows: Rc<Cell<u32>>,
    ) -> Result<Outcome, Fail> {
        let mut picker: Box<dyn Picker> = Box::new(alloc, First)?;
        let mut passes: Vec<Box<dyn Pass>> = Vec::new(alloc);
        passes.push(Box::new(alloc, Watching { windows })?)?;
        let (store, out, err) = (&mut self.store, &mut self.out, &mut self.err);
        Ok(heco(alloc, words, store, out, err, &mut picker, &mut passes))
    }

    fn led(&mut self, alloc: Global, words: &[String]) -> Result<Outcome, Fail> {
        match self.picker {
            PickerName::First if self.usual => self.by_usual(alloc, words),
            PickerName::First => self.by_first(alloc, words),
            PickerName::Last => self.by_last(alloc, words),
            PickerName::Drawn => self.by_drawn(alloc, words),
        }
    }

    // The words of a command, before which all must have been done.
    fn next_words(&self, alloc: Global, text: &str) -> Result<Vec<String>, Fail> {
        if self.outcome != Outcome::Ok {
            return Err("not done".into());
        }
        Ok(words_of(alloc, text)?)
    }

    fn command(&mut self, alloc: Global, text: &str) -> Result<(), Fail> {
        let words = self.next_words(alloc, text)?;
        self.outcome = self.led(alloc, words.as_slice())?;
        Ok(())
    }

    /// A command whose picker picks the first event and counts in the cell how often it is asked.
    pub fn counted(&mut self, alloc: Global, text: &str, calls: Rc<Cell<u32>>) -> Result<(), Fail> {
        let words = self.next_words(alloc, text)?;
        self.outcome = self.by_counted(alloc, words.as_slice(), calls)?;
        Ok(())
    }

    /// A command with one pass, which answers nothing and counts in the cell how many windows it is shown.
    pub fn watched(
        &mut self,
        alloc: Global,
        text: &str,
        windows: Rc<Cell<u32>>,
    ) -> Result<(), Fail> {
        let words = self.next_words(alloc, text)?;
        self.outcome = self.by_watched(alloc, words.as_slice(), windows)?;
        Ok(())
    }

    /// Makes a step: `put NAME TEXT`, `hex NAME BYTES`, `zeros NAME LENGTH`, `copy NAME FROM`, `set NAME PLACE BYTES`,
    /// `append NAME FROM COUNT` and `cut NAME LENGTH` make a file; `same NAME OTHER`, `length NAME LENGTH`,
    /// `digest NAME START` and `absent NAME` must be so; `picker NAME` chooses one; `passes none`
    /// runs none from then on; anything else is a command.
    pub fn step(&mut self, alloc: Global, step: &str) -> Result<(), Fail> {
        let (verb, rest) = step.split_once(' ').unwrap_or((step, ""));
        let (name, rest) = rest.split_once(' ').unwrap_or((rest, ""));
        match verb {
            "put" | "hex" | "zeros" | "copy" => self.make(alloc, verb, name, rest),
            "set" => self.set(alloc, name, rest),
            "cut" => self.cut(alloc, name, rest),
            "append" => self.append(alloc, name, rest),
            "same" | "length" | "digest" => self.expect(alloc, verb, name, rest),
            "absent" => self.absent(name),
            "picker" => {
                self.picker = picker_named(name);
                Ok(())
            }
            "passes" => {
                self.usual = name != "none";
                Ok(())
            }
            _ => self.command(alloc, step),
        }
    }

    /// Makes steps, with a semicolon between.
    pub fn steps(&mut self, alloc: Global, steps: &str) -> Result<(), Fail> {
        for step in steps.split(';') {
            self.step(alloc, step)?;
        }
        Ok(())
    }

    fn absent(&self, name: &str) -> Result<(), Fail> {
        if self.store.file(name).is_none() {
            return Ok(());
        }
        Err("a file is there".into())
    }

    /// The status, the line on the error stream and the printed text, with `|` between.
    pub fn left(&self, alloc: Global) -> Result<String, Fail> {
        let line = written(self.err.bytes())?;
        let printed = written(self.out.bytes())?;
        Ok(format!(in alloc; "{}|{line}|{printed}", self.outcome.status())?)
    }
}

//! The program: it hands the system's files and streams to the top call, and ends with its status.
#![tactic(auto)]

use heco_outside::{FileStore, OutSink, Sink};
use heco_peep::{NegPass, Pass, ScalePass, SubPass};
use heco_sched::{First, Picker};
use heco_top::{Outcome, heco, refuse_words};
use std::alloc::AllocError;
use std::process::ExitCode;
use std::{env, io};

// The words behind the program's name.
fn words(rt: &HostRuntime) -> io::Result<Vec<String>> {
    let mut words = Vec::new(rt.alloc());
    for word in env::args(rt)?.skip(1) {
        words.push(word)?;
    }
    Ok(words)
}

// What the top call answers over the system's files. The first of the legal events is picked each time, and over what is
// compiled three passes run: a sum with a negative becomes a difference, the negative of a negative goes, and a multiple of
// a multiple becomes one.
fn done<O: Sink, E: Sink>(
    rt: HostRuntime,
    words: &[String],
    out: &mut O,
    err: &mut E,
) -> Result<Outcome, AllocError> {
    let alloc = rt.alloc();
    let mut picker: Box<dyn Picker> = Box::new(alloc, First)?;
    let mut passes: Vec<Box<dyn Pass>> = Vec::new(alloc);
    passes.push(Box::new(alloc, SubPass { done: 0 })?)?;
    passes.push(Box::new(alloc, NegPass { done: 0 })?)?;
    passes.push(Box::new(alloc, ScalePass { done: 0 })?)?;
    let mut store = FileStore::new(rt);
    Ok(heco(alloc, words, &mut store, out, err, &mut picker, &mut passes))
}

fn main(rt: HostRuntime) -> ExitCode {
    let mut out = OutSink::new(rt.stdout());
    let mut err = OutSink::new(rt.stderr());
    let outcome = match words(&rt) {
        Ok(words) => done(rt, words.as_slice(), &mut out, &mut err).unwrap_or(Outcome::Memory),
        Err(error) if error.kind() == io::ErrorKind::OutOfMemory => Outcome::Memory,
        Err(_) => refuse_words(&mut err),
    };
    ExitCode::from(outcome.status())
}

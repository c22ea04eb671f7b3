ghost use Rattle.std.specs.Prelude.{◌≡◌, IsTrue, codes};
ghost use Rattle.heco_outside.specs.Calls.{Wrote};
ghost use Rattle.heco_outside.specs.Causes.{SinkCause};
ghost use Rattle.heco_jobs.specs.Lines.{line_of, refusal_line, Reports, rule_name, place_line, input_name, input_rule, long_line, input_line, missing_line, offset_line};
ghost use Rattle.heco_jobs.specs.Lines.{noisy_line, deep_line, evaluation_name, relin_line, key_line, other_line, read_line, write_line};
ghost use Rattle.heco_jobs.specs.Words.{texts};

use crate::words::name_of;
use crate::{Outcome, Refusal};
use heco_lex::{Place, Rule};
use heco_outside::{Sink, SinkErr, write_pieces};
use heco_texts::InputRule;
use itoa::Buffer;

fn rule_name(rule: Rule) -> &'static [u8]
    ensures { result.now ≡ rule_name rule }
{
    match rule {
        Rule::BadByte => b"BadByte",
        Rule::Syntax => b"Syntax",
        Rule::TooNested => b"TooNested",
        Rule::UnknownParams => b"UnknownParams",
        Rule::UnknownName => b"UnknownName",
        Rule::Redeclared => b"Redeclared",
        Rule::NotAssignable => b"NotAssignable",
        Rule::Kind => b"Kind",
        Rule::SecretIndex => b"SecretIndex",
        Rule::SecretBound => b"SecretBound",
        Rule::SecretToPublic => b"SecretToPublic",
        Rule::Length => b"Length",
        Rule::IndexRange => b"IndexRange",
        Rule::PublicRange => b"PublicRange",
        Rule::TooLarge => b"TooLarge",
    }
}

// `SRC:LINE:COL: RULE`
fn write_place<E: Sink>(name: &str, rule: &[u8], at: Place, err: &mut E) -> Result<(), SinkErr>
    ensures cause { SinkCause (E.faults err.old) (E.faults err.new) (E.shortages err.old) (E.shortages err.new) result }
    ensures wrote { IsTrue E.tells → Wrote (E.taken err.old) (E.taken err.new) (place_line name.now at.line at.col rule.now) result }
{
    let mut line = Buffer::new();
    let mut col = Buffer::new();
    write_pieces(
        err,
        &[
            name.as_bytes(),
            b":".as_slice(),
            line.format(at.line).as_bytes(),
            b":".as_slice(),
            col.format(at.col).as_bytes(),
            b": ".as_slice(),
            rule,
            b"\n".as_slice(),
        ],
    )
}

// The file word that the command reads as the text of inputs.
fn input_name(words: &[String]) -> &str
    ensures { result.now ≡ input_name (texts words.now) }
{
    if name_of(words, 0) == "encrypt" {
        name_of(words, 4)
    } else {
        name_of(words, 2)
    }
}

fn input_rule(rule: InputRule) -> &'static [u8]
    ensures { result.now ≡ input_rule rule }
{
    match rule {
        InputRule::InputText => b"InputText",
        InputRule::InputName => b"InputName",
        InputRule::InputCount => b"InputCount",
        InputRule::InputValue => b"InputValue",
    }
}

// `SRC: SourceLong`, `IN: InputLong`
fn write_long<E: Sink>(name: &str, rule: &[u8], err: &mut E) -> Result<(), SinkErr>
    ensures cause { SinkCause (E.faults err.old) (E.faults err.new) (E.shortages err.old) (E.shortages err.new) result }
    ensures wrote { IsTrue E.tells → Wrote (E.taken err.old) (E.taken err.new) (long_line name.now rule.now) result }
{
    write_pieces(
        err,
        &[name.as_bytes(), b": ".as_slice(), rule, b"\n".as_slice()],
    )
}

// `IN:LINE: RULE`
fn write_input<E: Sink>(name: &str, rule: &[u8], line: u32, err: &mut E) -> Result<(), SinkErr>
    ensures cause { SinkCause (E.faults err.old) (E.faults err.new) (E.shortages err.old) (E.shortages err.new) result }
    ensures wrote { IsTrue E.tells → Wrote (E.taken err.old) (E.taken err.new) (input_line name.now rule.now line) result }
{
    let mut number = Buffer::new();
    write_pieces(
        err,
        &[
            name.as_bytes(),
            b":".as_slice(),
            number.format(line).as_bytes(),
            b": ".as_slice(),
            rule,
            b"\n".as_slice(),
        ],
    )
}

// `IN: InputMissing WHICH`
fn write_missing<E: Sink>(name: &str, which: u32, err: &mut E) -> Result<(), SinkErr>
    ensures cause { SinkCause (E.faults err.old) (E.faults err.new) (E.shortages err.old) (E.shortages err.new) result }
    ensures wrote { IsTrue E.tells → Wrote (E.taken err.old) (E.taken err.new) (missing_line name.now which) result }
{
    let mut number = Buffer::new();
    write_pieces(
        err,
        &[
            name.as_bytes(),
            b": InputMissing ".as_slice(),
            number.format(which).as_bytes(),
            b"\n".as_slice(),
        ],
    )
}

// `FILE: RULE at AT`
fn write_offset<E: Sink>(name: &str, what: &[u8], at: u64, err: &mut E) -> Result<(), SinkErr>
    ensures cause { SinkCause (E.faults err.old) (E.faults err.new) (E.shortages err.old) (E.shortages err.new) result }
    ensures wrote { IsTrue E.tells → Wrote (E.taken err.old) (E.taken err.new) (offset_line name.now what.now at) result }
{
    let mut number = Buffer::new();
    write_pieces(
        err,
        &[
            name.as_bytes(),
            b": ".as_slice(),
            what,
            b" at ".as_slice(),
            number.format(at).as_bytes(),
            b"\n".as_slice(),
        ],
    )
}

fn write_malformed<E: Sink>(name: &str, at: u64, err: &mut E) -> Result<(), SinkErr>
    ensures cause { SinkCause (E.faults err.old) (E.faults err.new) (E.shortages err.old) (E.shortages err.new) result }
    ensures wrote { IsTrue E.tells → Wrote (E.taken err.old) (E.taken err.new) (offset_line name.now (codes "Malformed") at) result }
{
    write_offset(name, b"Malformed".as_slice(), at, err)
}

// `FILE: Noisy gate GATE bound BOUND`
fn write_noisy<E: Sink>(name: &str, gate: u32, bound: u128, err: &mut E) -> Result<(), SinkErr>
    ensures cause { SinkCause (E.faults err.old) (E.faults err.new) (E.shortages err.old) (E.shortages err.new) result }
    ensures wrote { IsTrue E.tells → Wrote (E.taken err.old) (E.taken err.new) (noisy_line name.now gate bound) result }
{
    let mut number = Buffer::new();
    let mut passing = Buffer::new();
    write_pieces(
        err,
        &[
            name.as_bytes(),
            b": Noisy gate ".as_slice(),
            number.format(gate).as_bytes(),
            b" bound ".as_slice(),
            passing.format(bound).as_bytes(),
            b"\n".as_slice(),
        ],
    )
}

// `SRC: TooDeep out OUT index INDEX bound BOUND`
fn write_deep<E: Sink>(
    name: &str,
    out: u32,
    index: u32,
    bound: u128,
    err: &mut E,
) -> Result<(), SinkErr>
    ensures cause { SinkCause (E.faults err.old) (E.faults err.new) (E.shortages err.old) (E.shortages err.new) result }
    ensures wrote { IsTrue E.tells → Wrote (E.taken err.old) (E.taken err.new) (deep_line name.now out index bound) result }
{
    let mut output = Buffer::new();
    let mut place = Buffer::new();
    let mut passing = Buffer::new();
    write_pieces(
        err,
        &[
            name.as_bytes(),
            b": TooDeep out ".as_slice(),
            output.format(out).as_bytes(),
            b" index ".as_slice(),
            place.format(index).as_bytes(),
            b" bound ".as_slice(),
            passing.format(bound).as_bytes(),
            b"\n".as_slice(),
        ],
    )
}

// The file word that the command reads as the evaluation key.
fn evaluation_name(words: &[String]) -> &str
    ensures { result.now ≡ evaluation_name (texts words.now) }
{
    if name_of(words, 0) == "measure" {
        name_of(words, 3)
    } else {
        name_of(words, 2)
    }
}

// `EVA: MissingRelin`
fn write_missing_relin<E: Sink>(name: &str, err: &mut E) -> Result<(), SinkErr>
    ensures cause { SinkCause (E.faults err.old) (E.faults err.new) (E.shortages err.old) (E.shortages err.new) result }
    ensures wrote { IsTrue E.tells → Wrote (E.taken err.old) (E.taken err.new) (relin_line name.now) result }
{
    write_pieces(err, &[name.as_bytes(), b": MissingRelin\n".as_slice()])
}

// `EVA: MissingKey AMOUNT`
fn write_missing_key<E: Sink>(name: &str, amount: u16, err: &mut E) -> Result<(), SinkErr>
    ensures cause { SinkCause (E.faults err.old) (E.faults err.new) (E.shortages err.old) (E.shortages err.new) result }
    ensures wrote { IsTrue E.tells → Wrote (E.taken err.old) (E.taken err.new) (key_line name.now amount) result }
{
    let mut number = Buffer::new();
    write_pieces(
        err,
        &[
            name.as_bytes(),
            b": MissingKey ".as_slice(),
            number.format(amount).as_bytes(),
            b"\n".as_slice(),
        ],
    )
}

// `FILE: RULE want WANT found FOUND`
fn write_other<E: Sink>(
    name: &str,
    what: &[u8],
    want: u32,
    found: u32,
    err: &mut E,
) -> Result<(), SinkErr>
    ensures cause { SinkCause (E.faults err.old) (E.faults err.new) (E.shortages err.old) (E.shortages err.new) result }
    ensures wrote { IsTrue E.tells → Wrote (E.taken err.old) (E.taken err.new) (other_line name.now what.now want found) result }
{
    let mut wanted = Buffer::new();
    let mut other = Buffer::new();
    write_pieces(
        err,
        &[
            name.as_bytes(),
            b": ".as_slice(),
            what,
            b" want ".as_slice(),
            wanted.format(want).as_bytes(),
            b" found ".as_slice(),
            other.format(found).as_bytes(),
            b"\n".as_slice(),
        ],
    )
}

fn write_preset<E: Sink>(name: &str, kept: u8, found: u8, err: &mut E) -> Result<(), SinkErr>
    ensures cause { SinkCause (E.faults err.old) (E.faults err.new) (E.shortages err.old) (E.shortages err.new) result }
    ensures wrote { IsTrue E.tells → Wrote (E.taken err.old) (E.taken err.new) (other_line name.now (codes "WrongPreset") kept found) result }
{
    write_other(
        name,
        b"WrongPreset".as_slice(),
        u32::from(kept),
        u32::from(found),
        err,
    )
}

fn write_count<E: Sink>(name: &str, want: u32, found: u32, err: &mut E) -> Result<(), SinkErr>
    ensures cause { SinkCause (E.faults err.old) (E.faults err.new) (E.shortages err.old) (E.shortages err.new) result }
    ensures wrote { IsTrue E.tells → Wrote (E.taken err.old) (E.taken err.new) (other_line name.now (codes "Count") want found) result }
{
    write_other(name, b"Count".as_slice(), want, found, err)
}

fn write_read_fault<E: Sink>(name: &str, err: &mut E) -> Result<(), SinkErr>
    ensures cause { SinkCause (E.faults err.old) (E.faults err.new) (E.shortages err.old) (E.shortages err.new) result }
    ensures wrote { IsTrue E.tells → Wrote (E.taken err.old) (E.taken err.new) (read_line name.now) result }
{
    write_pieces(err, &[name.as_bytes(), b": read fault\n".as_slice()])
}

fn write_write_fault<E: Sink>(words: &[String], which: u8, err: &mut E) -> Result<(), SinkErr>
    ensures cause { SinkCause (E.faults err.old) (E.faults err.new) (E.shortages err.old) (E.shortages err.new) result }
    ensures wrote { IsTrue E.tells → Wrote (E.taken err.old) (E.taken err.new) (write_line (texts words.now) which) result }
{
    if which == 0 {
        return err.write_all(b"standard output: write fault\n".as_slice());
    }
    let name = name_of(words, which);
    write_pieces(err, &[name.as_bytes(), b": write fault\n".as_slice()])
}

fn write_refusal<E: Sink>(words: &[String], refusal: Refusal, err: &mut E) -> Result<(), SinkErr>
    ensures cause { SinkCause (E.faults err.old) (E.faults err.new) (E.shortages err.old) (E.shortages err.new) result }
    ensures wrote { IsTrue E.tells → Wrote (E.taken err.old) (E.taken err.new) (refusal_line (texts words.now) refusal) result }
{
    match refusal {
        Refusal::Usage => err.write_all(b"usage: heco COMMAND WORDS\n".as_slice()),
        Refusal::SourceLong => write_long(name_of(words, 1), b"SourceLong".as_slice(), err),
        Refusal::At { rule, at } => write_place(name_of(words, 1), rule_name(rule), at, err),
        Refusal::TooDeep { out, index, bound } => {
            write_deep(name_of(words, 1), out, index, bound, err)
        }
        Refusal::InputLong => write_long(input_name(words), b"InputLong".as_slice(), err),
        Refusal::InputAt { rule, line } => {
            write_input(input_name(words), input_rule(rule), line, err)
        }
        Refusal::InputMissing { which } => write_missing(input_name(words), which, err),
        Refusal::SecondLong => write_long(name_of(words, 3), b"InputLong".as_slice(), err),
        Refusal::SecondAt { rule, line } => {
            write_input(name_of(words, 3), input_rule(rule), line, err)
        }
        Refusal::SecondMissing { which } => write_missing(name_of(words, 3), which, err),
        Refusal::Length { which, at } => {
            write_offset(name_of(words, which), b"Length".as_slice(), at, err)
        }
        Refusal::Bounds { which, at } => {
            write_offset(name_of(words, which), b"Bounds".as_slice(), at, err)
        }
        Refusal::Malformed { which, at } => write_malformed(name_of(words, which), at, err),
        Refusal::Noisy { which, gate, bound } => {
            write_noisy(name_of(words, which), gate, bound, err)
        }
        Refusal::WrongPreset { which, kept, found } => {
            write_preset(name_of(words, which), kept, found, err)
        }
        Refusal::Count { which, want, found } => {
            write_count(name_of(words, which), want, found, err)
        }
        Refusal::MissingRelin => write_missing_relin(evaluation_name(words), err),
        Refusal::MissingKey { amount } => write_missing_key(evaluation_name(words), amount, err),
    }
}

fn write_outcome<E: Sink>(words: &[String], outcome: &Outcome, err: &mut E) -> Result<(), SinkErr>
    ensures cause { SinkCause (E.faults err.old) (E.faults err.new) (E.shortages err.old) (E.shortages err.new) result }
    ensures wrote { IsTrue E.tells → Wrote (E.taken err.old) (E.taken err.new) (line_of (texts words.now) outcome.now) result }
{
    match *outcome {
        Outcome::Ok => Ok(()),
        Outcome::Refused(refusal) => write_refusal(words, refusal, err),
        Outcome::ReadFault { which } => write_read_fault(name_of(words, which), err),
        Outcome::WriteFault { which } => write_write_fault(words, which, err),
        Outcome::Memory => err.write_all(b"out of memory\n".as_slice()),
    }
}

/// Writes the line of an outcome. A failure to do so changes nothing.
pub fn report_outcome<E: Sink>(words: &[String], outcome: &Outcome, err: &mut E)
    ensures { IsTrue E.tells → Reports (E.taken err.old) (E.taken err.new) (line_of (texts words.now) outcome.now)
        (E.faults err.old) (E.faults err.new) (E.shortages err.old) (E.shortages err.new) }
{
    let _ = write_outcome(words, outcome, err);
}

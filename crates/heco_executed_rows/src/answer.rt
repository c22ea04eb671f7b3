use heco_execution::{EvalErr, Numbers, plain};
use heco_lex::Rule;
use heco_nums::{Inputs, List, Memory, Outputs};
use heco_parse::{ParseErr, parse};
use std::alloc::Global;

/// What reading and execution answer.
#[derive(Debug, Drop)]
pub enum Answer {
    NoTree,
    Outputs(Outputs),
    At(Rule, u32, u32),
}

pub fn rows_of(alloc: Global, rows: &[&[u32]]) -> Result<List<List<u32>>, Memory> {
    let mut list = List::new(alloc);
    for row in rows {
        list.push(List::from_slice(alloc, row)?)?;
    }
    Ok(list)
}

pub fn answer_to(alloc: Global, text: &[u8], t: u32, rows: &[&[u32]]) -> Result<Answer, Memory> {
    if t == 0 {
        return Ok(Answer::NoTree);
    }
    let source = match parse(alloc, text) {
        Ok(source) => source,
        Err(ParseErr::Memory) => return Err(Memory),
        Err(_) => return Ok(Answer::NoTree),
    };
    let inputs = Inputs {
        rows: rows_of(alloc, rows)?,
    };
    match plain(alloc, Numbers { t }, &source, &inputs) {
        Ok(outputs) => Ok(Answer::Outputs(outputs)),
        Err(EvalErr::At { rule, at }) => Ok(Answer::At(rule, at.line, at.col)),
        Err(EvalErr::Memory) => Err(Memory),
    }
}

/// Whether the answer is this one output list.
pub fn gives(answer: &Answer, wanted: &[u32]) -> bool {
    match answer {
        Answer::Outputs(outputs) => match outputs.rows.as_slice() {
            [row] => row.as_slice() == wanted,
            _ => false,
        },
        _ => false,
    }
}

/// Whether the answer is this rule at this place.
pub fn breaks(answer: &Answer, wanted: (Rule, u32, u32)) -> bool {
    match answer {
        Answer::At(rule, line, col) => *rule == wanted.0 && *line == wanted.1 && *col == wanted.2,
        _ => false,
    }
}

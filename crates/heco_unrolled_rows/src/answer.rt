use bumpalo::Bump;
use heco_ir::{Ir, NodeId, SNode, Scalar};
use heco_nums::List;
use heco_sources::read_source;
use heco_types::Typed;
use heco_unroll::{EvalErr, unroll};
use std::alloc::Global;
use std::test::Fail;

fn text_at(texts: &[String], id: NodeId) -> Result<&str, Fail> {
    match texts.get(id.0 as usize) {
        Some(text) => Ok(text.as_str()),
        None => Err("no node".into()),
    }
}

fn sum(alloc: Global, texts: &[String], x: NodeId, y: NodeId) -> Result<String, Fail> {
    let (x, y) = (text_at(texts, x)?, text_at(texts, y)?);
    Ok(format!(in alloc; "({x} + {y})")?)
}

fn product(alloc: Global, texts: &[String], x: NodeId, y: NodeId) -> Result<String, Fail> {
    let (x, y) = (text_at(texts, x)?, text_at(texts, y)?);
    Ok(format!(in alloc; "({x} * {y})")?)
}

// The term of a node over the texts of those before it. An element is its input's number and its place there.
fn term_of(alloc: Global, texts: &[String], n: SNode) -> Result<String, Fail> {
    match n {
        SNode::Num { c } => Ok(format!(in alloc; "{c}")?),
        SNode::Elem { a, i } => Ok(format!(in alloc; "{a}[{i}]")?),
        SNode::Sum { x, y } => sum(alloc, texts, x, y),
        SNode::Prod { x, y } => product(alloc, texts, x, y),
        SNode::Neg { x } => Ok(format!(in alloc; "-{}", text_at(texts, x)?)?),
    }
}

fn terms_of(alloc: Global, ir: &Ir<'_, Scalar>) -> Result<List<String>, Fail> {
    let mut texts = List::new(alloc);
    for i in 0..ir.len() {
        texts.push(term_of(alloc, texts.as_slice(), ir.node(NodeId(i)))?)?;
    }
    Ok(texts)
}

// The texts at the roots, each with a mark behind it.
fn joined(alloc: Global, texts: &[String], roots: &[NodeId]) -> Result<String, Fail> {
    let mut text = String::new(alloc);
    for root in roots {
        text.push_str(text_at(texts, *root)?)?;
        text.push(';')?;
    }
    Ok(text)
}

// The terms of the roots, in order.
fn root_terms(alloc: Global, ir: &Ir<'_, Scalar>) -> Result<String, Fail> {
    let texts = terms_of(alloc, ir)?;
    joined(alloc, texts.as_slice(), ir.roots().as_slice())
}

/// The typed source of a text, of which nothing more is promised: so what calls this is proved fast.
pub fn typed(alloc: Global, text: &str) -> Result<Typed, Fail> {
    match read_source(alloc, text.as_bytes()) {
        Ok(t) => Ok(t),
        Err(_) => Err("no typed source".into()),
    }
}

/// The nodes of a typed source, of which nothing is promised.
pub fn unrolled<'b>(alloc: Global, t: &Typed, b: &'b Bump) -> Result<Ir<'b, Scalar>, EvalErr> {
    unroll(alloc, t, b)
}

fn told(alloc: Global, found: Result<Ir<'_, Scalar>, EvalErr>) -> Result<String, Fail> {
    match found {
        Ok(ir) => root_terms(alloc, &ir),
        Err(EvalErr::At { rule, at }) => {
            Ok(format!(in alloc; "{}:{}: {rule:?}", at.line, at.col)?)
        }
        Err(EvalErr::Memory) => Err("no memory".into()),
    }
}

fn answer_of(alloc: Global, t: &Typed) -> Result<String, Fail> {
    let arena = Bump::new(alloc);
    told(alloc, unrolled(alloc, t, &arena))
}

/// What unrolling answers to a typed source, as text: the terms of the roots, or the broken rule and its place.
pub fn answer_to(alloc: Global, text: &str) -> Result<String, Fail> {
    let t = typed(alloc, text)?;
    answer_of(alloc, &t)
}

/// Whether unrolling answers what a row says: a source behind its head, `|`, and the answer.
pub fn holds(alloc: Global, head: &str, row: &str) -> Result<bool, Fail> {
    let (source, wanted) = row.split_once('|').ok_or("no answer")?;
    let text = format!(in alloc; "{head}{source}")?;
    Ok(answer_to(alloc, text.as_str())?.as_str() == wanted)
}

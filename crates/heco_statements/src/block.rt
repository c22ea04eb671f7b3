ghost use Rattle.std.specs.Prelude.{◌≡◌, [], ◌∷◌, length};
ghost use Rattle.heco_expressions.specs.Reading.{Reads};
ghost use Rattle.heco_statements.specs.Reading as spec;

use crate::statement::{assignment, bounds, int_statement, secret_statement};
use heco_expressions::{Cursor, Stop, sum};
use heco_lex::{Place, TokenKind};
use heco_nums::List;
use heco_syntax::{First, Stmt};
use std::alloc::Global;

#[cycle(block)]
fn loop_statement(
    alloc: Global,
    cursor: &mut Cursor<'_>,
    levels: u32,
    depth: u32,
    at: Place,
) -> Result<Stmt, Stop>
    ensures { Reads (spec.loop levels (spec.block levels depth) at cursor.old) result cursor.new }
{
    let name = cursor.word(alloc)?;
    cursor.expect(TokenKind::In)?;
    let (low, high) = bounds(alloc, cursor, levels)?;
    let body = block(alloc, cursor, levels, depth)?;
    Ok(Stmt::Loop {
        at,
        name,
        low,
        high,
        body,
    })
}

// The block behind `else`, where one stands.
#[cycle(block)]
fn otherwise(
    alloc: Global,
    cursor: &mut Cursor<'_>,
    levels: u32,
    depth: u32,
) -> Result<Option<List<Stmt>>, Stop>
    ensures { Reads (spec.maybe_otherwise levels (spec.block levels depth) cursor.old) result cursor.new }
{
    if !cursor.is_at(TokenKind::Else) {
        return Ok(None);
    }
    cursor.expect(TokenKind::Else)?;
    let other = block(alloc, cursor, levels, depth)?;
    Ok(Some(other))
}

#[cycle(block)]
fn choice(
    alloc: Global,
    cursor: &mut Cursor<'_>,
    levels: u32,
    depth: u32,
    at: Place,
) -> Result<Stmt, Stop>
    ensures { Reads (spec.choice levels (spec.block levels depth) at cursor.old) result cursor.new }
{
    let cond = sum(alloc, cursor, levels)?;
    let yes = block(alloc, cursor, levels, depth)?;
    let no = otherwise(alloc, cursor, levels, depth)?;
    Ok(Stmt::Choice { at, cond, yes, no })
}

#[cycle(block)]
fn statement(
    alloc: Global,
    cursor: &mut Cursor<'_>,
    levels: u32,
    depth: u32,
    first: First,
) -> Result<Stmt, Stop>
    ensures { Reads (spec.statement_from levels (spec.block levels depth) first cursor.old) result cursor.new }
{
    match first {
        First::Int(at) => int_statement(alloc, cursor, levels, at),
        First::Secret(at) => secret_statement(alloc, cursor, levels, at),
        First::For(at) => loop_statement(alloc, cursor, levels, depth, at),
        First::If(at) => choice(alloc, cursor, levels, depth, at),
        First::Name(name) => assignment(alloc, cursor, levels, name),
    }
}

#[cycle(block)]
#[tactic(auto, unfolding(crate::specs::Reading::series))]
fn body(alloc: Global, cursor: &mut Cursor<'_>, levels: u32, depth: u32) -> Result<List<Stmt>, Stop>
    ensures { Reads (spec.body levels (spec.block levels depth) cursor.old) result cursor.new }
{
    let mut found = List::new(alloc);
    for _turn in 0..cursor.len() {
        let Some(first) = cursor.first(alloc)? else {
            return Ok(found);
        };
        let x = statement(alloc, cursor, levels, depth, first)?;
        found.push(x)?;
    }
    Ok(found)
}

/// A block at the front of the tokens, with so many levels and blocks to open.
#[cycle(block)]
#[tactic(auto, unfolding(crate::specs::Reading::block))]
pub fn block(
    alloc: Global,
    cursor: &mut Cursor<'_>,
    levels: u32,
    depth: u32,
) -> Result<List<Stmt>, Stop>
    ensures { Reads (spec.block levels depth cursor.old) result cursor.new }
{
    if depth == 0 {
        let nested = cursor.is_at(TokenKind::OpenBrace);
        return Err(if nested {
            Stop::TooNested
        } else {
            Stop::Syntax
        });
    }
    cursor.expect(TokenKind::OpenBrace)?;
    let found = body(alloc, cursor, levels, depth - 1)?;
    cursor.expect(TokenKind::CloseBrace)?;
    Ok(found)
}

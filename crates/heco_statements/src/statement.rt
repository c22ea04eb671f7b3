ghost use Rattle.std.specs.Prelude.{◌≡◌, [], ◌∷◌, length};
ghost use Rattle.heco_expressions.specs.Reading.{Reads};
ghost use Rattle.heco_statements.specs.Reading as spec;

use heco_expressions::{Cursor, Stop, sum};
use heco_lex::{Place, TokenKind};
use heco_nums::List;
use heco_syntax::{Expr, Ident, Num, Stmt};
use std::alloc::Global;

// An expression and a semicolon.
pub fn value(alloc: Global, cursor: &mut Cursor<'_>, levels: u32) -> Result<Expr, Stop>
    ensures { Reads (spec.value levels cursor.old) result cursor.new }
{
    let x = sum(alloc, cursor, levels)?;
    cursor.expect(TokenKind::Semi)?;
    Ok(x)
}

// A length in brackets.
pub fn length_in_brackets(cursor: &mut Cursor<'_>) -> Result<Num, Stop>
    ensures { Reads (spec.length_in_brackets cursor.old) result cursor.new }
{
    cursor.expect(TokenKind::OpenBracket)?;
    let len = cursor.number()?;
    cursor.expect(TokenKind::CloseBracket)?;
    Ok(len)
}

#[tactic(auto, unfolding(crate::specs::Reading::series))]
fn more_values(
    alloc: Global,
    cursor: &mut Cursor<'_>,
    levels: u32,
    first: Expr,
) -> Result<List<Expr>, Stop>
    ensures { Reads (spec.more_values levels first cursor.old) result cursor.new }
{
    let mut values = List::new(alloc);
    values.push(first)?;
    for _turn in 0..cursor.len() {
        let Some(_comma) = cursor.comma() else {
            return Ok(values);
        };
        let x = sum(alloc, cursor, levels)?;
        values.push(x)?;
    }
    Ok(values)
}

fn values(alloc: Global, cursor: &mut Cursor<'_>, levels: u32) -> Result<List<Expr>, Stop>
    ensures { Reads (spec.values levels cursor.old) result cursor.new }
{
    let first = sum(alloc, cursor, levels)?;
    more_values(alloc, cursor, levels, first)
}

// The values of a list in braces.
fn braced_values(alloc: Global, cursor: &mut Cursor<'_>, levels: u32) -> Result<List<Expr>, Stop>
    ensures { Reads (spec.braced_values levels cursor.old) result cursor.new }
{
    cursor.expect(TokenKind::OpenBrace)?;
    let found = values(alloc, cursor, levels)?;
    cursor.expect(TokenKind::CloseBrace)?;
    Ok(found)
}

fn int_many(
    alloc: Global,
    cursor: &mut Cursor<'_>,
    levels: u32,
    at: Place,
    name: Ident,
) -> Result<Stmt, Stop>
    ensures { Reads (spec.int_many levels at name cursor.old) result cursor.new }
{
    let len = length_in_brackets(cursor)?;
    cursor.expect(TokenKind::Assign)?;
    let values = braced_values(alloc, cursor, levels)?;
    cursor.expect(TokenKind::Semi)?;
    Ok(Stmt::IntMany {
        at,
        name,
        len,
        values,
    })
}

fn int_one(
    alloc: Global,
    cursor: &mut Cursor<'_>,
    levels: u32,
    at: Place,
    name: Ident,
) -> Result<Stmt, Stop>
    ensures { Reads (spec.int_one levels at name cursor.old) result cursor.new }
{
    cursor.expect(TokenKind::Assign)?;
    let value = value(alloc, cursor, levels)?;
    Ok(Stmt::IntOne { at, name, value })
}

/// What follows `int`.
pub fn int_statement(
    alloc: Global,
    cursor: &mut Cursor<'_>,
    levels: u32,
    at: Place,
) -> Result<Stmt, Stop>
    ensures { Reads (spec.int_statement levels at cursor.old) result cursor.new }
{
    let name = cursor.word(alloc)?;
    if cursor.is_at(TokenKind::OpenBracket) {
        return int_many(alloc, cursor, levels, at, name);
    }
    int_one(alloc, cursor, levels, at, name)
}

fn secret_many(cursor: &mut Cursor<'_>, at: Place, name: Ident) -> Result<Stmt, Stop>
    ensures { Reads (spec.secret_many 0 at name cursor.old) result cursor.new }
{
    let len = length_in_brackets(cursor)?;
    cursor.expect(TokenKind::Semi)?;
    Ok(Stmt::SecretMany { at, name, len })
}

fn given(alloc: Global, cursor: &mut Cursor<'_>, levels: u32) -> Result<Option<Expr>, Stop>
    ensures { Reads (spec.given levels cursor.old) result cursor.new }
{
    cursor.expect(TokenKind::Assign)?;
    let x = value(alloc, cursor, levels)?;
    Ok(Some(x))
}

fn secret_value(alloc: Global, cursor: &mut Cursor<'_>, levels: u32) -> Result<Option<Expr>, Stop>
    ensures { Reads (spec.secret_value levels cursor.old) result cursor.new }
{
    if cursor.is_at(TokenKind::Assign) {
        return given(alloc, cursor, levels);
    }
    cursor.expect(TokenKind::Semi)?;
    Ok(None)
}

fn secret_one(
    alloc: Global,
    cursor: &mut Cursor<'_>,
    levels: u32,
    at: Place,
    name: Ident,
) -> Result<Stmt, Stop>
    ensures { Reads (spec.secret_one levels at name cursor.old) result cursor.new }
{
    let value = secret_value(alloc, cursor, levels)?;
    Ok(Stmt::SecretOne { at, name, value })
}

/// What follows `secret`.
pub fn secret_statement(
    alloc: Global,
    cursor: &mut Cursor<'_>,
    levels: u32,
    at: Place,
) -> Result<Stmt, Stop>
    ensures { Reads (spec.secret_statement levels at cursor.old) result cursor.new }
{
    let name = cursor.word(alloc)?;
    if cursor.is_at(TokenKind::OpenBracket) {
        return secret_many(cursor, at, name);
    }
    secret_one(alloc, cursor, levels, at, name)
}

fn index(alloc: Global, cursor: &mut Cursor<'_>, levels: u32) -> Result<Option<Expr>, Stop>
    ensures { Reads (spec.index levels cursor.old) result cursor.new }
{
    if levels == 0 {
        return Err(Stop::TooNested);
    }
    cursor.expect(TokenKind::OpenBracket)?;
    let index = sum(alloc, cursor, levels - 1)?;
    cursor.expect(TokenKind::CloseBracket)?;
    Ok(Some(index))
}

fn target(alloc: Global, cursor: &mut Cursor<'_>, levels: u32) -> Result<Option<Expr>, Stop>
    ensures { Reads (spec.target levels cursor.old) result cursor.new }
{
    if cursor.is_at(TokenKind::OpenBracket) {
        return index(alloc, cursor, levels);
    }
    Ok(None)
}

/// What follows the name of an assignment's target.
pub fn assignment(
    alloc: Global,
    cursor: &mut Cursor<'_>,
    levels: u32,
    name: Ident,
) -> Result<Stmt, Stop>
    ensures { Reads (spec.assignment levels name cursor.old) result cursor.new }
{
    let index = target(alloc, cursor, levels)?;
    let (op, op_at) = cursor.set_op()?;
    let value = value(alloc, cursor, levels)?;
    Ok(Stmt::Set {
        name,
        index,
        op,
        op_at,
        value,
    })
}

/// The bounds of a loop, and what stands between them.
pub fn bounds(alloc: Global, cursor: &mut Cursor<'_>, levels: u32) -> Result<(Expr, Expr), Stop>
    ensures { Reads (spec.bounds levels cursor.old) result cursor.new }
{
    let low = sum(alloc, cursor, levels)?;
    cursor.expect(TokenKind::Range)?;
    let high = sum(alloc, cursor, levels)?;
    Ok((low, high))
}

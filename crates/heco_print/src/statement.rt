ghost use Rattle.std.specs.Prelude.{◌≡◌, ◌++◌, ◌∷◌, [], OnOk};
ghost use Rattle.std.specs.List.{flat_map};
ghost use Rattle.heco_lex.specs.declared.token.TokenKind.TheVariants as k;
ghost use Rattle.heco_print.specs.Spelling.{expression, mark, separated};
ghost use Rattle.heco_print.specs.Statements as spec;

use crate::expression::{spell, spell_values};
use crate::mark::{put, put_at, put_number, put_word};
use heco_lex::{Place, TokenKind};
use heco_nums::{List, Memory};
use heco_syntax::{Expr, Ident, Lexeme, Num, SetOp, Stmt};
use std::alloc::Global;

// "[" Number "]"
pub fn spell_brackets(alloc: Global, len: Num, out: &mut List<Lexeme>) -> Result<(), Memory>
    ensures { OnOk result (out.new ≡ out.old ++ spec.brackets len) }
{
    put(alloc, TokenKind::OpenBracket, out)?;
    put_number(alloc, len, out)?;
    put(alloc, TokenKind::CloseBracket, out)
}

// expr ";"
pub fn spell_value(alloc: Global, value: &Expr, out: &mut List<Lexeme>) -> Result<(), Memory>
    ensures { OnOk result (out.new ≡ out.old ++ (expression value.now ++ mark k.Semi ∷ [])) }
{
    spell(alloc, value, out)?;
    put(alloc, TokenKind::Semi, out)
}

fn spell_int_one(
    alloc: Global,
    at: Place,
    name: &Ident,
    value: &Expr,
    out: &mut List<Lexeme>,
) -> Result<(), Memory>
    ensures { OnOk result (out.new ≡ out.old ++ spec.int_one at name.now value.now) }
{
    put_at(alloc, TokenKind::Int, at, out)?;
    put_word(alloc, name, out)?;
    put(alloc, TokenKind::Assign, out)?;
    spell_value(alloc, value, out)
}

// "{" expr { "," expr } "}"
fn spell_braced_values(alloc: Global, values: &[Expr], out: &mut List<Lexeme>) -> Result<(), Memory>
    ensures { OnOk result (out.new ≡ out.old ++ spec.braces (separated expression values.now)) }
{
    put(alloc, TokenKind::OpenBrace, out)?;
    spell_values(alloc, values, out)?;
    put(alloc, TokenKind::CloseBrace, out)
}

fn spell_int_many(
    alloc: Global,
    at: Place,
    name: &Ident,
    len: Num,
    values: &[Expr],
    out: &mut List<Lexeme>,
) -> Result<(), Memory>
    ensures { OnOk result (out.new ≡ out.old ++ spec.int_many at name.now len values.now) }
{
    put_at(alloc, TokenKind::Int, at, out)?;
    put_word(alloc, name, out)?;
    spell_brackets(alloc, len, out)?;
    put(alloc, TokenKind::Assign, out)?;
    spell_braced_values(alloc, values, out)?;
    put(alloc, TokenKind::Semi, out)
}

fn spell_given(alloc: Global, value: &Option<Expr>, out: &mut List<Lexeme>) -> Result<(), Memory>
    ensures { OnOk result (out.new ≡ out.old ++ spec.given value.now) }
{
    match value {
        Some(x) => {
            put(alloc, TokenKind::Assign, out)?;
            spell(alloc, x, out)
        }
        None => Ok(()),
    }
}

fn spell_secret_one(
    alloc: Global,
    at: Place,
    name: &Ident,
    value: &Option<Expr>,
    out: &mut List<Lexeme>,
) -> Result<(), Memory>
    ensures { OnOk result (out.new ≡ out.old ++ spec.secret_one at name.now value.now) }
{
    put_at(alloc, TokenKind::Secret, at, out)?;
    put_word(alloc, name, out)?;
    spell_given(alloc, value, out)?;
    put(alloc, TokenKind::Semi, out)
}

fn spell_secret_many(
    alloc: Global,
    at: Place,
    name: &Ident,
    len: Num,
    out: &mut List<Lexeme>,
) -> Result<(), Memory>
    ensures { OnOk result (out.new ≡ out.old ++ spec.secret_many at name.now len) }
{
    put_at(alloc, TokenKind::Secret, at, out)?;
    put_word(alloc, name, out)?;
    spell_brackets(alloc, len, out)?;
    put(alloc, TokenKind::Semi, out)
}

fn spell_target(alloc: Global, index: &Option<Expr>, out: &mut List<Lexeme>) -> Result<(), Memory>
    ensures { OnOk result (out.new ≡ out.old ++ spec.target index.now) }
{
    match index {
        Some(x) => {
            put(alloc, TokenKind::OpenBracket, out)?;
            spell(alloc, x, out)?;
            put(alloc, TokenKind::CloseBracket, out)
        }
        None => Ok(()),
    }
}

fn set_kind(op: SetOp) -> TokenKind
    ensures { result ≡ spec.set_kind op }
{
    match op {
        SetOp::Put => TokenKind::Assign,
        SetOp::Add => TokenKind::AddAssign,
        SetOp::Sub => TokenKind::SubAssign,
        SetOp::Mul => TokenKind::MulAssign,
    }
}

fn spell_assignment(
    alloc: Global,
    name: &Ident,
    index: &Option<Expr>,
    op: (SetOp, Place),
    value: &Expr,
    out: &mut List<Lexeme>,
) -> Result<(), Memory>
    ensures { OnOk result (out.new ≡ out.old ++ spec.assignment name.now index.now op.0 op.1 value.now) }
{
    put_word(alloc, name, out)?;
    spell_target(alloc, index, out)?;
    put_at(alloc, set_kind(op.0), op.1, out)?;
    spell_value(alloc, value, out)
}

// "for" Word "in" expr ".." expr
fn spell_loop_head(
    alloc: Global,
    at: Place,
    name: &Ident,
    low: &Expr,
    high: &Expr,
    out: &mut List<Lexeme>,
) -> Result<(), Memory>
    ensures { OnOk result (out.new ≡ out.old ++ spec.loop_head at name.now low.now high.now) }
{
    put_at(alloc, TokenKind::For, at, out)?;
    put_word(alloc, name, out)?;
    put(alloc, TokenKind::In, out)?;
    spell(alloc, low, out)?;
    put(alloc, TokenKind::Range, out)?;
    spell(alloc, high, out)
}

// "if" expr
fn spell_choice_head(
    alloc: Global,
    at: Place,
    test: &Expr,
    out: &mut List<Lexeme>,
) -> Result<(), Memory>
    ensures { OnOk result (out.new ≡ out.old ++ spec.choice_head at test.now) }
{
    put_at(alloc, TokenKind::If, at, out)?;
    spell(alloc, test, out)
}

#[cycle(blocks)]
fn spell_statement(alloc: Global, x: &Stmt, out: &mut List<Lexeme>) -> Result<(), Memory>
    ensures { OnOk result (out.new ≡ out.old ++ spec.spelled_stmt x.now) }
{
    match x {
        Stmt::IntOne { at, name, value } => spell_int_one(alloc, *at, name, value, out),
        Stmt::IntMany {
            at,
            name,
            len,
            values,
        } => spell_int_many(alloc, *at, name, *len, values.as_slice(), out),
        Stmt::SecretOne { at, name, value } => spell_secret_one(alloc, *at, name, value, out),
        Stmt::SecretMany { at, name, len } => spell_secret_many(alloc, *at, name, *len, out),
        Stmt::Set {
            name,
            index,
            op,
            op_at,
            value,
        } => spell_assignment(alloc, name, index, (*op, *op_at), value, out),
        Stmt::Loop {
            at,
            name,
            low,
            high,
            body,
        } => {
            spell_loop_head(alloc, *at, name, low, high, out)?;
            spell_block(alloc, body.as_slice(), out)
        }
        Stmt::Choice { at, cond, yes, no } => {
            spell_choice_head(alloc, *at, cond, out)?;
            match no {
                None => spell_block(alloc, yes.as_slice(), out),
                Some(no) => {
                    spell_block(alloc, yes.as_slice(), out)?;
                    spell_otherwise(alloc, no.as_slice(), out)
                }
            }
        }
    }
}

#[cycle(blocks)]
fn spell_statements(alloc: Global, body: &[Stmt], out: &mut List<Lexeme>) -> Result<(), Memory>
    ensures { OnOk result (out.new ≡ out.old ++ flat_map spec.spelled_stmt body.now) }
{
    for x in body {
        spell_statement(alloc, x, out)?;
    }
    Ok(())
}

// "else" block
#[cycle(blocks)]
fn spell_otherwise(alloc: Global, body: &[Stmt], out: &mut List<Lexeme>) -> Result<(), Memory>
    ensures { OnOk result (out.new ≡ out.old ++ mark k.Else ∷ spec.block body.now) }
{
    put(alloc, TokenKind::Else, out)?;
    spell_block(alloc, body, out)
}

/// The tokens of a block.
#[cycle(blocks)]
pub fn spell_block(alloc: Global, body: &[Stmt], out: &mut List<Lexeme>) -> Result<(), Memory>
    ensures { OnOk result (out.new ≡ out.old ++ spec.block body.now) }
{
    put(alloc, TokenKind::OpenBrace, out)?;
    spell_statements(alloc, body, out)?;
    put(alloc, TokenKind::CloseBrace, out)
}

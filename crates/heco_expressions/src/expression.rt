ghost use Rattle.std.specs.Prelude.{◌≡◌, ℕ, [], ◌∷◌, length, ◌<◌, IfOk, IfErr, OnOk, OnErr, MatchResult};
ghost use Rattle.heco_expressions.specs.Reading as spec;
ghost use Rattle.heco_syntax.specs.Parts as parts;
ghost use Rattle.heco_expressions.specs.Reading.{Reads};

use crate::cursor::{Cursor, Start};
use crate::stop::Stop;
use heco_lex::{Place, TokenKind};
use heco_nums::List;
use heco_syntax::{Expr, Ident, ProdPart, SumPart};
use sqlite_items::Boxed;
use std::alloc::Global;

fn sum_of(alloc: Global, first: Expr, rest: List<SumPart>) -> Result<Expr, Stop>
    ensures { MatchResult result (λ x. x ≡ parts.sum_of first rest) (λ e. e ≡ Stop.Memory) }
{
    if rest.len() == 0 {
        return Ok(first);
    }
    let first = Boxed::new(alloc, first)?;
    Ok(Expr::Sum { first, rest })
}

fn product_of(alloc: Global, first: Expr, rest: List<ProdPart>) -> Result<Expr, Stop>
    ensures { MatchResult result (λ x. x ≡ parts.product_of first rest) (λ e. e ≡ Stop.Memory) }
{
    if rest.len() == 0 {
        return Ok(first);
    }
    let first = Boxed::new(alloc, first)?;
    Ok(Expr::Prod { first, rest })
}

fn negated(alloc: Global, at: Place, of: Expr) -> Result<Expr, Stop>
    ensures { MatchResult result (λ x. x ≡ Expr.Neg at of) (λ e. e ≡ Stop.Memory) }
{
    let of = Boxed::new(alloc, of)?;
    Ok(Expr::Neg { at, of })
}

fn item(alloc: Global, name: Ident, index: Expr) -> Result<Expr, Stop>
    ensures { MatchResult result (λ x. x ≡ Expr.Item name index) (λ e. e ≡ Stop.Memory) }
{
    let index = Boxed::new(alloc, index)?;
    Ok(Expr::Item { name, index })
}

#[cycle(expression)]
#[tactic(auto, using(crate::proofs::Levels::factor_starts))]
fn factor(alloc: Global, cursor: &mut Cursor<'_>, levels: u32) -> Result<Expr, Stop>
    ensures { Reads (spec.factor levels cursor.old) result cursor.new }
{
    match cursor.start() {
        Start::Number => {
            let number = cursor.number()?;
            Ok(Expr::Lit(number))
        }
        Start::Word => named(alloc, cursor, levels),
        Start::Minus => negative(alloc, cursor, levels),
        Start::Open => group(alloc, cursor, levels),
        Start::Other => Err(Stop::Syntax),
    }
}

// A name, with an index or arguments where they follow.
#[cycle(expression)]
fn named(alloc: Global, cursor: &mut Cursor<'_>, levels: u32) -> Result<Expr, Stop>
    ensures { Reads (spec.named levels cursor.old) result cursor.new }
{
    let name = cursor.word(alloc)?;
    if cursor.is_at(TokenKind::OpenBracket) {
        return indexed(alloc, cursor, levels, name);
    }
    if cursor.is_at(TokenKind::Open) {
        return called(alloc, cursor, levels, name);
    }
    Ok(Expr::One(name))
}

// The index behind a name.
#[cycle(expression)]
fn indexed(alloc: Global, cursor: &mut Cursor<'_>, levels: u32, name: Ident) -> Result<Expr, Stop>
    ensures { Reads (spec.indexed levels name cursor.old) result cursor.new }
{
    if levels == 0 {
        return Err(Stop::TooNested);
    }
    cursor.expect(TokenKind::OpenBracket)?;
    let index = sum(alloc, cursor, levels - 1)?;
    cursor.expect(TokenKind::CloseBracket)?;
    item(alloc, name, index)
}

// The arguments behind a name.
#[cycle(expression)]
fn called(alloc: Global, cursor: &mut Cursor<'_>, levels: u32, name: Ident) -> Result<Expr, Stop>
    ensures { Reads (spec.called levels name cursor.old) result cursor.new }
{
    if levels == 0 {
        return Err(Stop::TooNested);
    }
    cursor.expect(TokenKind::Open)?;
    let args = arguments(alloc, cursor, levels - 1)?;
    cursor.expect(TokenKind::Close)?;
    Ok(Expr::Call { name, args })
}

// The arguments up to the `)`, which stays.
#[cycle(expression)]
#[tactic(auto, unfolding(crate::specs::Reading::arguments))]
fn arguments(alloc: Global, cursor: &mut Cursor<'_>, levels: u32) -> Result<List<Expr>, Stop>
    ensures { Reads (spec.arguments (spec.factor levels) cursor.old) result cursor.new }
{
    if cursor.is_at(TokenKind::Close) {
        return Ok(List::new(alloc));
    }
    let first = sum(alloc, cursor, levels)?;
    further(alloc, cursor, levels, first)
}

#[cycle(expression)]
#[tactic(auto, unfolding(crate::specs::Reading::parts_from))]
fn further(
    alloc: Global,
    cursor: &mut Cursor<'_>,
    levels: u32,
    first: Expr,
) -> Result<List<Expr>, Stop>
    ensures { Reads (spec.further (spec.factor levels) first cursor.old) result cursor.new }
{
    let mut found = List::new(alloc);
    found.push(first)?;
    for _turn in 0..cursor.len() {
        let Some(_at) = cursor.comma() else {
            return Ok(found);
        };
        let x = sum(alloc, cursor, levels)?;
        found.push(x)?;
    }
    Ok(found)
}

#[cycle(expression)]
fn negative(alloc: Global, cursor: &mut Cursor<'_>, levels: u32) -> Result<Expr, Stop>
    ensures { Reads (spec.negative levels cursor.old) result cursor.new }
{
    if levels == 0 {
        return Err(Stop::TooNested);
    }
    let at = cursor.expect(TokenKind::Minus)?;
    let of = factor(alloc, cursor, levels - 1)?;
    negated(alloc, at, of)
}

// An expression in parentheses.
#[cycle(expression)]
fn group(alloc: Global, cursor: &mut Cursor<'_>, levels: u32) -> Result<Expr, Stop>
    ensures { Reads (spec.group levels cursor.old) result cursor.new }
{
    if levels == 0 {
        return Err(Stop::TooNested);
    }
    cursor.expect(TokenKind::Open)?;
    let x = sum(alloc, cursor, levels - 1)?;
    cursor.expect(TokenKind::Close)?;
    Ok(x)
}

#[cycle(expression)]
#[tactic(auto, unfolding(crate::specs::Reading::product))]
fn product(alloc: Global, cursor: &mut Cursor<'_>, levels: u32) -> Result<Expr, Stop>
    ensures { Reads (spec.product (spec.factor levels) cursor.old) result cursor.new }
{
    let first = factor(alloc, cursor, levels)?;
    let rest = factors(alloc, cursor, levels)?;
    product_of(alloc, first, rest)
}

#[cycle(expression)]
#[tactic(auto, unfolding(crate::specs::Reading::parts_from))]
fn factors(alloc: Global, cursor: &mut Cursor<'_>, levels: u32) -> Result<List<ProdPart>, Stop>
    ensures { Reads (spec.parts_from parts.product_sign parts.product_part (spec.factor levels) (length cursor.old) [] cursor.old) result cursor.new }
{
    let mut found = List::new(alloc);
    for _turn in 0..cursor.len() {
        let Some(at) = cursor.product_sign() else {
            return Ok(found);
        };
        let of = factor(alloc, cursor, levels)?;
        found.push(ProdPart { at, of })?;
    }
    Ok(found)
}

/// An expression at the front of the tokens, with so many levels to open.
#[cycle(expression)]
#[tactic(auto, unfolding(crate::specs::Reading::sum))]
pub fn sum(alloc: Global, cursor: &mut Cursor<'_>, levels: u32) -> Result<Expr, Stop>
    ensures { Reads (spec.sum (spec.factor levels) cursor.old) result cursor.new }
{
    let first = product(alloc, cursor, levels)?;
    let rest = products(alloc, cursor, levels)?;
    sum_of(alloc, first, rest)
}

#[cycle(expression)]
#[tactic(auto, unfolding(crate::specs::Reading::parts_from))]
fn products(alloc: Global, cursor: &mut Cursor<'_>, levels: u32) -> Result<List<SumPart>, Stop>
    ensures { Reads (spec.parts_from parts.sum_sign parts.sum_part (spec.product (spec.factor levels)) (length cursor.old) [] cursor.old) result cursor.new }
{
    let mut found = List::new(alloc);
    for _turn in 0..cursor.len() {
        let Some((minus, at)) = cursor.sum_sign() else {
            return Ok(found);
        };
        let of = product(alloc, cursor, levels)?;
        found.push(SumPart { minus, at, of })?;
    }
    Ok(found)
}

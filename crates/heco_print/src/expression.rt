ghost use Rattle.std.specs.Prelude.{◌≡◌, ◌++◌, ◌∷◌, [], OnOk};
ghost use Rattle.std.specs.List.{flat_map};
ghost use Rattle.heco_lex.specs.declared.token.TokenKind.TheVariants as k;
ghost use Rattle.heco_print.specs.Spelling as spec;

use crate::mark::{put, put_at, put_number, put_word};
use heco_lex::TokenKind;
use heco_nums::{List, Memory};
use heco_syntax::{Expr, Lexeme, ProdPart, SumPart};
use std::alloc::Global;

// How loosely the expression binds.
fn rank(x: &Expr) -> u8
    ensures { result ≡ (spec.spelled x.now).rank }
{
    match x {
        Expr::Sum { .. } => 2,
        Expr::Prod { .. } => 1,
        _ => 0,
    }
}

#[cycle(spelling)]
pub fn spell(alloc: Global, x: &Expr, out: &mut List<Lexeme>) -> Result<(), Memory>
    ensures { OnOk result (out.new ≡ out.old ++ (spec.spelled x.now).tokens) }
{
    match x {
        Expr::Lit(number) => put_number(alloc, *number, out),
        Expr::One(name) => put_word(alloc, name, out),
        Expr::Item { name, index } => {
            put_word(alloc, name, out)?;
            put(alloc, TokenKind::OpenBracket, out)?;
            spell(alloc, index.get(), out)?;
            put(alloc, TokenKind::CloseBracket, out)
        }
        Expr::Neg { at, of } => {
            put_at(alloc, TokenKind::Minus, *at, out)?;
            spell_within(alloc, 0, of.get(), out)
        }
        Expr::Sum { first, rest } => {
            spell_within(alloc, 1, first.get(), out)?;
            spell_sum_parts(alloc, rest.as_slice(), out)
        }
        Expr::Prod { first, rest } => {
            spell_within(alloc, 0, first.get(), out)?;
            spell_product_parts(alloc, rest.as_slice(), out)
        }
        Expr::Call { name, args } => {
            put_word(alloc, name, out)?;
            spell_arguments(alloc, args.as_slice(), out)
        }
    }
}

// In parentheses where the expression binds more loosely than the limit.
#[cycle(spelling)]
fn spell_within(alloc: Global, limit: u8, x: &Expr, out: &mut List<Lexeme>) -> Result<(), Memory>
    ensures { OnOk result (out.new ≡ out.old ++ spec.wrapped limit (spec.spelled x.now)) }
{
    if limit < rank(x) {
        put(alloc, TokenKind::Open, out)?;
        spell(alloc, x, out)?;
        return put(alloc, TokenKind::Close, out);
    }
    spell(alloc, x, out)
}

#[cycle(spelling)]
fn spell_sum_parts(alloc: Global, parts: &[SumPart], out: &mut List<Lexeme>) -> Result<(), Memory>
    ensures { OnOk result (out.new ≡ out.old ++ flat_map spec.spelled_sum_part parts.now) }
{
    for part in parts {
        let sign = if part.minus {
            TokenKind::Minus
        } else {
            TokenKind::Plus
        };
        put_at(alloc, sign, part.at, out)?;
        spell_within(alloc, 1, &part.of, out)?;
    }
    Ok(())
}

#[cycle(spelling)]
fn spell_product_parts(
    alloc: Global,
    parts: &[ProdPart],
    out: &mut List<Lexeme>,
) -> Result<(), Memory>
    ensures { OnOk result (out.new ≡ out.old ++ flat_map spec.spelled_product_part parts.now) }
{
    for part in parts {
        put_at(alloc, TokenKind::Star, part.at, out)?;
        spell_within(alloc, 0, &part.of, out)?;
    }
    Ok(())
}

#[cycle(spelling)]
fn spell_more_values(alloc: Global, values: &[Expr], out: &mut List<Lexeme>) -> Result<(), Memory>
    ensures { OnOk result (out.new ≡ out.old ++ flat_map (λ x. spec.mark k.Comma ∷ spec.expression x) values.now) }
{
    for value in values {
        put(alloc, TokenKind::Comma, out)?;
        spell(alloc, value, out)?;
    }
    Ok(())
}

/// Expressions with commas between.
#[cycle(spelling)]
#[tactic(auto, using(crate::proofs::Prints::rest_no_deeper))]
pub fn spell_values(alloc: Global, values: &[Expr], out: &mut List<Lexeme>) -> Result<(), Memory>
    ensures { OnOk result (out.new ≡ out.old ++ spec.separated spec.expression values.now) }
{
    match values.split_first() {
        Some((first, rest)) => {
            spell(alloc, first, out)?;
            spell_more_values(alloc, rest, out)
        }
        None => Ok(()),
    }
}

// "(" [ expr { "," expr } ] ")"
#[cycle(spelling)]
fn spell_arguments(alloc: Global, args: &[Expr], out: &mut List<Lexeme>) -> Result<(), Memory>
    ensures { OnOk result (out.new ≡ out.old ++ spec.parens (spec.separated spec.expression args.now)) }
{
    put(alloc, TokenKind::Open, out)?;
    spell_values(alloc, args, out)?;
    put(alloc, TokenKind::Close, out)
}

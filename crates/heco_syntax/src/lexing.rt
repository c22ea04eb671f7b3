ghost use Rattle.std.specs.Prelude.{◌≡◌, ◌+◌, ◌-◌, ◌≤◌, ◌<◌, ◌^◌, length, IfOk, count_by, ◌==◌, true, Some};
ghost use Rattle.std.specs.List.{list_all};
ghost use Rattle.std.specs.Str.Parse.{digits_value};
ghost use Rattle.heco_lex.specs.Kinds.{is_digit, kind_of};
ghost use Rattle.heco_lex.specs.Places.{since_line_end, place_in};
ghost use Rattle.heco_lex.specs.Splits.{AreSpans, slice_of};
ghost use Rattle.heco_syntax.specs.Lexemes.{text_of, value_of, lexeme_of, lexemes_of};

use crate::lexeme::Lexeme;
use heco_lex::{Place, Token, TokenKind};
use heco_nums::{Bytes, List, Memory};
use std::alloc::Global;

// The place behind these bytes, where they begin at a place.
fn place_behind(at: Place, bytes: &[u8]) -> Place
    requires line { at.line + length bytes.now < 2 ^ 32 }
    requires col { at.col + length bytes.now < 2 ^ 32 }
    requires begun { 1 ≤ at.col }
    ensures line { result.line ≡ at.line + count_by (λ c. c == 10) bytes.now }
    ensures col { result.col ≡ 1 + since_line_end (at.col - 1) bytes.now }
{
    let mut line = at.line;
    let mut col = at.col;
    for byte in bytes {
        if *byte == b'\n' {
            line += 1;
            col = 1;
        } else {
            col += 1;
        }
    }
    Place { line, col }
}

fn decimal(digits: &[u8]) -> u64
    requires count { length digits.now ≤ 10 }
    requires digits { list_all is_digit digits.now ≡ true }
    ensures { result ≡ digits_value 10 digits.now }
{
    let mut value = 0;
    for digit in digits {
        value = 10 * value + u64::from(*digit - b'0');
    }
    value
}

fn kept_text(alloc: Global, kind: TokenKind, bytes: &[u8]) -> Result<Bytes, Memory>
    ensures { IfOk result (λ text. text ≡ text_of kind bytes.now) }
{
    match kind {
        TokenKind::Word => Bytes::from_slice(alloc, bytes),
        _ => Ok(Bytes::new(alloc)),
    }
}

fn kept_value(kind: TokenKind, bytes: &[u8]) -> u64
    requires { kind_of bytes.now ≡ Some kind }
    ensures { result ≡ value_of kind bytes.now }
{
    match kind {
        TokenKind::Number => decimal(bytes),
        _ => 0,
    }
}

fn lexeme(alloc: Global, text: &[u8], token: Token, at: Place) -> Result<Lexeme, Memory>
    requires begins { token.from ≤ token.to }
    requires ends { token.to ≤ length text.now }
    requires kind { kind_of (slice_of text.now token) ≡ Some token.kind }
    requires at { at ≡ place_in text.now token.from }
    ensures { IfOk result (λ l. l ≡ lexeme_of text.now token) }
{
    let bytes = &text[token.from as usize..token.to as usize];
    let kept = kept_text(alloc, token.kind, bytes)?;
    Ok(Lexeme {
        kind: token.kind,
        text: kept,
        value: kept_value(token.kind, bytes),
        at,
    })
}

/// The lexemes of the tokens of a text.
pub fn lexemes(alloc: Global, text: &[u8], tokens: &[Token]) -> Result<List<Lexeme>, Memory>
    requires length { length text.now ≤ 2 ^ 20 }
    requires spans { AreSpans text.now 0 tokens.now }
    ensures { IfOk result (λ ls. ls ≡ lexemes_of text.now tokens.now) }
{
    let mut found = List::new(alloc);
    let mut at = Place { line: 1, col: 1 };
    let mut from = 0;
    for token in tokens {
        at = place_behind(at, &text[from as usize..token.from as usize]);
        from = token.from;
        let next = lexeme(alloc, text, *token, at)?;
        found.push(next)?;
    }
    Ok(found)
}

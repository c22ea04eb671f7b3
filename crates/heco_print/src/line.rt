ghost use Rattle.std.specs.Prelude.{◌≡◌, ◌++◌, IfOk, OnOk};
ghost use Rattle.heco_print.specs.Lines.{fixed_text, text_of, spaced_text, line_of};

use heco_lex::TokenKind;
use heco_nums::{Bytes, Memory, put_number};
use heco_syntax::Lexeme;
use std::alloc::Global;

fn fixed_text(kind: TokenKind) -> &'static [u8]
    ensures { result.now ≡ fixed_text kind }
{
    match kind {
        TokenKind::Params => b"params",
        TokenKind::Fn => b"fn",
        TokenKind::In => b"in",
        TokenKind::Out => b"out",
        TokenKind::Int => b"int",
        TokenKind::Secret => b"secret",
        TokenKind::For => b"for",
        TokenKind::Def => b"def",
        TokenKind::If => b"if",
        TokenKind::Else => b"else",
        TokenKind::Open => b"(",
        TokenKind::Close => b")",
        TokenKind::OpenBrace => b"{",
        TokenKind::CloseBrace => b"}",
        TokenKind::OpenBracket => b"[",
        TokenKind::CloseBracket => b"]",
        TokenKind::Comma => b",",
        TokenKind::Semi => b";",
        TokenKind::Range => b"..",
        TokenKind::Assign => b"=",
        TokenKind::AddAssign => b"+=",
        TokenKind::SubAssign => b"-=",
        TokenKind::MulAssign => b"*=",
        TokenKind::Plus => b"+",
        TokenKind::Minus => b"-",
        TokenKind::Star => b"*",
        TokenKind::Word | TokenKind::Number => b"",
    }
}

fn put_text(t: &Lexeme, out: &mut Bytes) -> Result<(), Memory>
    ensures { OnOk result (out.new ≡ out.old ++ text_of t.now) }
{
    match t.kind {
        TokenKind::Word => out.extend_from_slice(t.text.as_slice()),
        TokenKind::Number => put_number(out, u128::from(t.value)),
        kind => out.extend_from_slice(fixed_text(kind)),
    }
}

fn put_spaced(tokens: &[Lexeme], out: &mut Bytes) -> Result<(), Memory>
    ensures { OnOk result (out.new ≡ out.old ++ spaced_text tokens.now) }
{
    for token in tokens {
        out.push(b' ')?;
        put_text(token, out)?;
    }
    Ok(())
}

/// The texts of the tokens with one space between, and a line end.
pub fn line(alloc: Global, tokens: &[Lexeme]) -> Result<Bytes, Memory>
    ensures { IfOk result (λ text. text ≡ line_of tokens.now) }
{
    let mut out = Bytes::new(alloc);
    if let Some((first, rest)) = tokens.split_first() {
        put_text(first, &mut out)?;
        put_spaced(rest, &mut out)?;
    }
    out.push(b'\n')?;
    Ok(out)
}

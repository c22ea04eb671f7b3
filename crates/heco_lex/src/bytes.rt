ghost use Rattle.std.specs.Prelude.{◌≡◌, Some, None};
ghost use Rattle.heco_lex.specs.Kinds.{is_blank, is_digit, word_kind, sign_of_one, sign_of_two};

use crate::token::TokenKind;

pub fn is_blank(c: u8) -> bool
    ensures { result ≡ is_blank c }
{
    c == b' ' || c == b'\t' || c == b'\r' || c == b'\n'
}

pub fn is_digit(c: u8) -> bool
    ensures { result ≡ is_digit c }
{
    c >= b'0' && c <= b'9'
}

/// The reserved word that the text is, or else a word.
pub fn word_kind(text: &[u8]) -> TokenKind
    ensures { result ≡ word_kind text.now }
{
    if text == b"params".as_slice() {
        return TokenKind::Params;
    }
    if text == b"fn".as_slice() {
        return TokenKind::Fn;
    }
    if text == b"in".as_slice() {
        return TokenKind::In;
    }
    if text == b"out".as_slice() {
        return TokenKind::Out;
    }
    if text == b"int".as_slice() {
        return TokenKind::Int;
    }
    if text == b"secret".as_slice() {
        return TokenKind::Secret;
    }
    if text == b"for".as_slice() {
        return TokenKind::For;
    }
    if text == b"def".as_slice() {
        return TokenKind::Def;
    }
    if text == b"if".as_slice() {
        return TokenKind::If;
    }
    if text == b"else".as_slice() {
        return TokenKind::Else;
    }
    TokenKind::Word
}

pub fn sign_of_one(c: u8) -> Option<TokenKind>
    ensures { result ≡ sign_of_one c }
{
    match c {
        b'(' => Some(TokenKind::Open),
        b')' => Some(TokenKind::Close),
        b'{' => Some(TokenKind::OpenBrace),
        b'}' => Some(TokenKind::CloseBrace),
        b'[' => Some(TokenKind::OpenBracket),
        b']' => Some(TokenKind::CloseBracket),
        b',' => Some(TokenKind::Comma),
        b';' => Some(TokenKind::Semi),
        b'=' => Some(TokenKind::Assign),
        b'+' => Some(TokenKind::Plus),
        b'-' => Some(TokenKind::Minus),
        b'*' => Some(TokenKind::Star),
        _ => None,
    }
}

pub fn sign_of_two(c: u8, d: u8) -> Option<TokenKind>
    ensures { result ≡ sign_of_two c d }
{
    match (c, d) {
        (b'.', b'.') => Some(TokenKind::Range),
        (b'+', b'=') => Some(TokenKind::AddAssign),
        (b'-', b'=') => Some(TokenKind::SubAssign),
        (b'*', b'=') => Some(TokenKind::MulAssign),
        _ => None,
    }
}

ghost use Rattle.std.specs.Prelude.{◌≡◌, ◌<◌, ◌≤◌, length, true, false, take, drop, get_or};
ghost use Rattle.std.specs.List.{list_all};
ghost use Rattle.heco_lex.specs.Kinds.{is_digit};
ghost use Rattle.heco_nums.specs.Words.{is_word_byte};
ghost use Rattle.heco_lex.specs.Pieces.{IsPiece, IsRun, sign_front};
ghost use Rattle.heco_lex.specs.Splits.{begins_comment, line_rest};

use crate::bytes::{is_blank, is_digit, sign_of_one, sign_of_two, word_kind};
use crate::token::TokenKind;
use heco_nums::{is_letter, is_word_byte};

/// What stands at the front of a text.
pub enum Piece {
    Blank,
    Comment { len: usize },
    Token { kind: TokenKind, len: usize },
    Bad,
}

fn line_rest(text: &[u8]) -> usize
    ensures { result ≡ line_rest text.now }
{
    for (i, c) in text.iter().enumerate() {
        if *c == b'\n' {
            return i;
        }
    }
    text.len()
}

fn begins_comment(text: &[u8]) -> bool
    ensures { result ≡ begins_comment text.now }
{
    match text {
        [c, d, ..] => *c == b'/' && *d == b'/',
        _ => false,
    }
}

fn word_run(text: &[u8]) -> usize
    ensures { IsRun is_word_byte text.now result }
{
    for (i, c) in text.iter().enumerate() {
        if !is_word_byte(*c) {
            return i;
        }
    }
    text.len()
}

fn digit_run(text: &[u8]) -> usize
    ensures { IsRun is_digit text.now result }
{
    for (i, c) in text.iter().enumerate() {
        if !is_digit(*c) {
            return i;
        }
    }
    text.len()
}

fn sign(text: &[u8]) -> Option<(TokenKind, usize)>
    ensures { result ≡ sign_front text.now }
{
    match text {
        [c, d, ..] => match sign_of_two(*c, *d) {
            Some(kind) => Some((kind, 2)),
            None => sign_of_one(*c).map(|kind| (kind, 1)),
        },
        [c] => sign_of_one(*c).map(|kind| (kind, 1)),
        [] => None,
    }
}

pub fn first_piece(text: &[u8]) -> Piece
    requires { 0 < length text.now }
    ensures { IsPiece text.now result }
{
    let first = text[0];
    if is_blank(first) {
        return Piece::Blank;
    }
    if begins_comment(text) {
        return Piece::Comment {
            len: line_rest(text),
        };
    }
    if is_letter(first) {
        let len = 1 + word_run(&text[1..]);
        return Piece::Token {
            kind: word_kind(&text[..len]),
            len,
        };
    }
    if is_digit(first) {
        let most = text.len().min(10);
        let len = 1 + digit_run(&text[1..most]);
        return Piece::Token {
            kind: TokenKind::Number,
            len,
        };
    }
    match sign(text) {
        Some((kind, len)) => Piece::Token { kind, len },
        None => Piece::Bad,
    }
}

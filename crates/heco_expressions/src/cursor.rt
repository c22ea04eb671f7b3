ghost use Rattle.std.specs.Prelude.{◌≡◌, None, Some, length, MatchOption, MatchResult, slice_get};
ghost use Rattle.std.specs.Option.{option_copied};
ghost use Rattle.heco_expressions.specs.Reading as spec;
ghost use Rattle.heco_expressions.specs.Reading.{Reads};
ghost use Rattle.heco_syntax.specs.Parts as parts;

use crate::stop::Stop;
use heco_lex::{Place, TokenKind};
use heco_nums::Bytes;
use heco_syntax::{First, Ident, Lexeme, Num, SetOp};
use std::alloc::Global;
use std::marker::Model;

/// The tokens that are left.
#[derive(Drop)]
pub struct Cursor<'a> {
    rest: &'a [Lexeme],
}

impl<'a> Model for Cursor<'a> {
    ghost use Rattle.std.specs.Prelude.{List};
    ghost use Rattle.heco_syntax.specs.declared.lexeme.Lexeme.{Lexeme};

    ghost Value = { List Lexeme };

    ghost view = { λ c. c.rest.now };
}

/// What a factor begins with.
#[derive(Clone, Copy, PartialEq, Eq)]
pub enum Start {
    Number,
    Word,
    Minus,
    Open,
    Other,
}

impl<'a> Cursor<'a> {
    pub fn new(rest: &'a [Lexeme]) -> Cursor<'a>
        ensures { result ≡ rest.now }
    {
        Cursor { rest }
    }

    pub fn len(&self) -> usize
        ensures { result ≡ length self.now }
    {
        self.rest.len()
    }

    /// The place of the next token, if there is one.
    pub fn place(&self) -> Option<Place>
        ensures { result ≡ spec.front_place self.now }
    {
        match self.rest {
            [] => None,
            [first, ..] => Some(first.at),
        }
    }

    pub fn start(&self) -> Start
        ensures { result ≡ spec.start self.now }
    {
        match self.rest {
            [] => Start::Other,
            [first, ..] => match first.kind {
                TokenKind::Number => Start::Number,
                TokenKind::Word => Start::Word,
                TokenKind::Minus => Start::Minus,
                TokenKind::Open => Start::Open,
                _ => Start::Other,
            },
        }
    }

    pub fn is_at(&self, kind: TokenKind) -> bool
        ensures { result ≡ spec.is_at kind self.now }
    {
        match self.rest {
            [] => false,
            [first, ..] => number_of(first.kind) == number_of(kind),
        }
    }

    /// Takes a token of the kind, and gives its place.
    pub fn expect(&mut self, kind: TokenKind) -> Result<Place, Stop>
        ensures { Reads (spec.expect kind self.old) result self.new }
    {
        match self.rest {
            [] => Err(Stop::Syntax),
            [first, others @ ..] => {
                if number_of(first.kind) != number_of(kind) {
                    return Err(Stop::Syntax);
                }
                self.rest = others;
                Ok(first.at)
            }
        }
    }

    pub fn number(&mut self) -> Result<Num, Stop>
        ensures { Reads (spec.number self.old) result self.new }
    {
        match self.rest {
            [] => Err(Stop::Syntax),
            [first, others @ ..] => {
                if number_of(first.kind) != number_of(TokenKind::Number) {
                    return Err(Stop::Syntax);
                }
                self.rest = others;
                Ok(Num {
                    value: first.value,
                    at: first.at,
                })
            }
        }
    }

    pub fn word(&mut self, alloc: Global) -> Result<Ident, Stop>
        ensures { Reads (spec.word self.old) result self.new }
    {
        match self.rest {
            [] => Err(Stop::Syntax),
            [first, others @ ..] => {
                if number_of(first.kind) != number_of(TokenKind::Word) {
                    return Err(Stop::Syntax);
                }
                let text = Bytes::from_slice(alloc, first.text.as_slice())?;
                self.rest = others;
                Ok(Ident { text, at: first.at })
            }
        }
    }

    /// Takes the first token of a statement, if one comes next.
    pub fn first(&mut self, alloc: Global) -> Result<Option<First>, Stop>
        ensures { MatchResult result (λ o. MatchOption o ((spec.signed parts.first_of self.old ≡ None)
            × (self.new ≡ self.old)) (λ s. spec.signed parts.first_of self.old ≡ Some (s, self.new))) (λ e. e ≡ Stop.Memory) }
    {
        match self.rest {
            [] => Ok(None),
            [token, others @ ..] => {
                let first = match token.kind {
                    TokenKind::Int => First::Int(token.at),
                    TokenKind::Secret => First::Secret(token.at),
                    TokenKind::For => First::For(token.at),
                    TokenKind::If => First::If(token.at),
                    TokenKind::Word => {
                        let text = Bytes::from_slice(alloc, token.text.as_slice())?;
                        First::Name(Ident { text, at: token.at })
                    }
                    _ => return Ok(None),
                };
                self.rest = others;
                Ok(Some(first))
            }
        }
    }

    /// Takes `in` or `out`, and tells whether it is `out`.
    pub fn direction(&mut self) -> Result<bool, Stop>
        ensures { Reads (spec.pick parts.direction self.old) result self.new }
    {
        match self.rest {
            [] => Err(Stop::Syntax),
            [first, others @ ..] => {
                let output = match first.kind {
                    TokenKind::In => false,
                    TokenKind::Out => true,
                    _ => return Err(Stop::Syntax),
                };
                self.rest = others;
                Ok(output)
            }
        }
    }

    /// Takes the operator of an assignment.
    pub fn set_op(&mut self) -> Result<(SetOp, Place), Stop>
        ensures { Reads (spec.pick parts.set_op self.old) result self.new }
    {
        match self.rest {
            [] => Err(Stop::Syntax),
            [first, others @ ..] => {
                let op = match first.kind {
                    TokenKind::Assign => SetOp::Put,
                    TokenKind::AddAssign => SetOp::Add,
                    TokenKind::SubAssign => SetOp::Sub,
                    TokenKind::MulAssign => SetOp::Mul,
                    _ => return Err(Stop::Syntax),
                };
                self.rest = others;
                Ok((op, first.at))
            }
        }
    }

    /// Takes a comma, if one comes next, and gives its place.
    pub fn comma(&mut self) -> Option<Place>
        ensures { MatchOption result ((spec.signed parts.comma self.old ≡ None) × (self.new ≡ self.old)) (λ s. spec.signed parts.comma self.old ≡ Some (s, self.new)) }
    {
        match self.rest {
            [] => None,
            [first, others @ ..] => match first.kind {
                TokenKind::Comma => {
                    self.rest = others;
                    Some(first.at)
                }
                _ => None,
            },
        }
    }

    /// Takes `def`, if it comes next, and gives its place.
    pub fn def_sign(&mut self) -> Option<Place>
        ensures { MatchOption result ((spec.signed parts.def_sign self.old ≡ None) × (self.new ≡ self.old)) (λ s. spec.signed parts.def_sign self.old ≡ Some (s, self.new)) }
    {
        match self.rest {
            [] => None,
            [first, others @ ..] => match first.kind {
                TokenKind::Def => {
                    self.rest = others;
                    Some(first.at)
                }
                _ => None,
            },
        }
    }

    /// Takes `+` or `-`, if one comes next: whether it is a minus, and its place.
    pub fn sum_sign(&mut self) -> Option<(bool, Place)>
        ensures { MatchOption result ((spec.signed parts.sum_sign self.old ≡ None) × (self.new ≡ self.old)) (λ s. spec.signed parts.sum_sign self.old ≡ Some (s, self.new)) }
    {
        match self.rest {
            [] => None,
            [first, others @ ..] => {
                let minus = match first.kind {
                    TokenKind::Plus => false,
                    TokenKind::Minus => true,
                    _ => return None,
                };
                self.rest = others;
                Some((minus, first.at))
            }
        }
    }

    /// Takes `*`, if it comes next, and gives its place.
    pub fn product_sign(&mut self) -> Option<Place>
        ensures { MatchOption result ((spec.signed parts.product_sign self.old ≡ None) × (self.new ≡ self.old)) (λ s. spec.signed parts.product_sign self.old ≡ Some (s, self.new)) }
    {
        match self.rest {
            [] => None,
            [first, others @ ..] => match first.kind {
                TokenKind::Star => {
                    self.rest = others;
                    Some(first.at)
                }
                _ => None,
            },
        }
    }
}

fn number_of(kind: TokenKind) -> u8
    ensures { result ≡ spec.kind_number kind }
{
    match kind {
        TokenKind::Word => 0,
        TokenKind::Number => 1,
        TokenKind::Params => 2,
        TokenKind::Fn => 3,
        TokenKind::In => 4,
        TokenKind::Out => 5,
        TokenKind::Int => 6,
        TokenKind::Secret => 7,
        TokenKind::For => 8,
        TokenKind::Def => 9,
        TokenKind::If => 10,
        TokenKind::Else => 11,
        TokenKind::Open => 12,
        TokenKind::Close => 13,
        TokenKind::OpenBrace => 14,
        TokenKind::CloseBrace => 15,
        TokenKind::OpenBracket => 16,
        TokenKind::CloseBracket => 17,
        TokenKind::Comma => 18,
        TokenKind::Semi => 19,
        TokenKind::Range => 20,
        TokenKind::Assign => 21,
        TokenKind::AddAssign => 22,
        TokenKind::SubAssign => 23,
        TokenKind::MulAssign => 24,
        TokenKind::Plus => 25,
        TokenKind::Minus => 26,
        TokenKind::Star => 27,
    }
}

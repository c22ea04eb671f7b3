ghost use Rattle.std.specs.Prelude.{◌≡◌, ◌++◌, ◌∷◌, [], OnOk};
ghost use Rattle.heco_print.specs.Spelling as spec;

use heco_lex::{Place, TokenKind};
use heco_nums::{Bytes, List, Memory};
use heco_syntax::{Ident, Lexeme, Num};
use std::alloc::Global;

pub const NOWHERE: Place = Place { line: 1, col: 1 };

pub fn put_at(
    alloc: Global,
    kind: TokenKind,
    at: Place,
    out: &mut List<Lexeme>,
) -> Result<(), Memory>
    ensures { OnOk result (out.new ≡ out.old ++ spec.mark_at kind at ∷ []) }
{
    let text = Bytes::new(alloc);
    out.push(Lexeme {
        kind,
        text,
        value: 0,
        at,
    })
}

// A token that the tree keeps no place of.
pub fn put(alloc: Global, kind: TokenKind, out: &mut List<Lexeme>) -> Result<(), Memory>
    ensures { OnOk result (out.new ≡ out.old ++ spec.mark kind ∷ []) }
{
    put_at(alloc, kind, NOWHERE, out)
}

pub fn put_word(alloc: Global, name: &Ident, out: &mut List<Lexeme>) -> Result<(), Memory>
    ensures { OnOk result (out.new ≡ out.old ++ spec.word_of name.now ∷ []) }
{
    let text = Bytes::from_slice(alloc, name.text.as_slice())?;
    out.push(Lexeme {
        kind: TokenKind::Word,
        text,
        value: 0,
        at: name.at,
    })
}

pub fn put_number(alloc: Global, number: Num, out: &mut List<Lexeme>) -> Result<(), Memory>
    ensures { OnOk result (out.new ≡ out.old ++ spec.digits_of number ∷ []) }
{
    let text = Bytes::new(alloc);
    out.push(Lexeme {
        kind: TokenKind::Number,
        text,
        value: number.value,
        at: number.at,
    })
}

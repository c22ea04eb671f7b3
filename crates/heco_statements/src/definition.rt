ghost use Rattle.std.specs.Prelude.{◌≡◌, [], ◌∷◌, length};
ghost use Rattle.heco_expressions.specs.Reading.{Reads};
ghost use Rattle.heco_statements.specs.Reading as spec;

use crate::statement::value;
use heco_expressions::{Cursor, Stop};
use heco_lex::{Place, TokenKind};
use heco_nums::List;
use heco_syntax::{Def, Ident};
use std::alloc::Global;

#[tactic(auto, unfolding(crate::specs::Reading::series))]
fn more_words(alloc: Global, cursor: &mut Cursor<'_>, first: Ident) -> Result<List<Ident>, Stop>
    ensures { Reads (spec.more_words first cursor.old) result cursor.new }
{
    let mut words = List::new(alloc);
    words.push(first)?;
    for _turn in 0..cursor.len() {
        let Some(_comma) = cursor.comma() else {
            return Ok(words);
        };
        let x = cursor.word(alloc)?;
        words.push(x)?;
    }
    Ok(words)
}

fn words(alloc: Global, cursor: &mut Cursor<'_>) -> Result<List<Ident>, Stop>
    ensures { Reads (spec.words cursor.old) result cursor.new }
{
    if cursor.is_at(TokenKind::Close) {
        return Ok(List::new(alloc));
    }
    let first = cursor.word(alloc)?;
    more_words(alloc, cursor, first)
}

// The parameters of a definition, in parentheses.
fn params(alloc: Global, cursor: &mut Cursor<'_>) -> Result<List<Ident>, Stop>
    ensures { Reads (spec.params cursor.old) result cursor.new }
{
    cursor.expect(TokenKind::Open)?;
    let found = words(alloc, cursor)?;
    cursor.expect(TokenKind::Close)?;
    Ok(found)
}

// A definition behind its `def`.
fn definition(alloc: Global, cursor: &mut Cursor<'_>, levels: u32, at: Place) -> Result<Def, Stop>
    ensures { Reads (spec.definition_from levels at cursor.old) result cursor.new }
{
    let name = cursor.word(alloc)?;
    let params = params(alloc, cursor)?;
    cursor.expect(TokenKind::Assign)?;
    let value = value(alloc, cursor, levels)?;
    Ok(Def {
        at,
        name,
        params,
        value,
    })
}

/// The definitions at the front of the tokens, with so many levels to open.
#[tactic(auto, unfolding(crate::specs::Reading::series))]
pub fn definitions(alloc: Global, cursor: &mut Cursor<'_>, levels: u32) -> Result<List<Def>, Stop>
    ensures { Reads (spec.definitions levels cursor.old) result cursor.new }
{
    let mut found = List::new(alloc);
    for _turn in 0..cursor.len() {
        let Some(at) = cursor.def_sign() else {
            return Ok(found);
        };
        let x = definition(alloc, cursor, levels, at)?;
        found.push(x)?;
    }
    Ok(found)
}

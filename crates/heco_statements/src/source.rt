ghost use Rattle.std.specs.Prelude.{◌≡◌, ◌<◌, [], ◌∷◌, length, OnOk, OnErr, IfErr};
ghost use Rattle.heco_expressions.specs.Reading.{Reads};
ghost use Rattle.heco_statements.specs.Reading as spec;

use crate::block::block;
use crate::definition::definitions;
use crate::statement::length_in_brackets;
use heco_expressions::{Cursor, Stop};
use heco_lex::TokenKind;
use heco_nums::List;
use heco_syntax::{Ident, Num, Param, Source};
use std::alloc::Global;

fn maybe_length(cursor: &mut Cursor<'_>) -> Result<Option<Num>, Stop>
    ensures { Reads (spec.maybe_length cursor.old) result cursor.new }
{
    if !cursor.is_at(TokenKind::OpenBracket) {
        return Ok(None);
    }
    let len = length_in_brackets(cursor)?;
    Ok(Some(len))
}

fn param(alloc: Global, cursor: &mut Cursor<'_>) -> Result<Param, Stop>
    ensures { Reads (spec.param cursor.old) result cursor.new }
{
    let output = cursor.direction()?;
    let name = cursor.word(alloc)?;
    let len = maybe_length(cursor)?;
    Ok(Param { output, name, len })
}

#[tactic(auto, unfolding(crate::specs::Reading::series))]
fn more_params(alloc: Global, cursor: &mut Cursor<'_>, first: Param) -> Result<List<Param>, Stop>
    ensures { Reads (spec.more_params first cursor.old) result cursor.new }
{
    let mut params = List::new(alloc);
    params.push(first)?;
    for _turn in 0..cursor.len() {
        let Some(_comma) = cursor.comma() else {
            return Ok(params);
        };
        let x = param(alloc, cursor)?;
        params.push(x)?;
    }
    Ok(params)
}

fn ports(alloc: Global, cursor: &mut Cursor<'_>) -> Result<List<Param>, Stop>
    ensures { Reads (spec.ports cursor.old) result cursor.new }
{
    if cursor.is_at(TokenKind::Close) {
        return Ok(List::new(alloc));
    }
    let first = param(alloc, cursor)?;
    more_params(alloc, cursor, first)
}

// The name of the preset.
fn preset_line(alloc: Global, cursor: &mut Cursor<'_>) -> Result<Ident, Stop>
    ensures { Reads (spec.preset_line cursor.old) result cursor.new }
{
    cursor.expect(TokenKind::Params)?;
    let preset = cursor.word(alloc)?;
    cursor.expect(TokenKind::Semi)?;
    Ok(preset)
}

fn signature(alloc: Global, cursor: &mut Cursor<'_>) -> Result<List<Param>, Stop>
    ensures { Reads (spec.signature cursor.old) result cursor.new }
{
    cursor.expect(TokenKind::Open)?;
    let found = ports(alloc, cursor)?;
    cursor.expect(TokenKind::Close)?;
    Ok(found)
}

fn source(alloc: Global, cursor: &mut Cursor<'_>, levels: u32, depth: u32) -> Result<Source, Stop>
    ensures { Reads (spec.source levels depth cursor.old) result cursor.new }
{
    let params = preset_line(alloc, cursor)?;
    let defs = definitions(alloc, cursor, levels)?;
    cursor.expect(TokenKind::Fn)?;
    let name = cursor.word(alloc)?;
    let ports = signature(alloc, cursor)?;
    let body = block(alloc, cursor, levels, depth)?;
    Ok(Source {
        params,
        defs,
        name,
        ports,
        body,
    })
}

fn end(cursor: &mut Cursor<'_>) -> Result<(), Stop>
    ensures ok { OnOk result ((cursor.old ≡ []) × (cursor.new ≡ [])) }
    ensures err { IfErr result (λ e. e ≡ Stop.Syntax) }
    ensures stays { OnErr result ((cursor.new ≡ cursor.old) × (0 < length cursor.old)) }
{
    if cursor.len() != 0 {
        return Err(Stop::Syntax);
    }
    Ok(())
}

/// The source that all the tokens spell, with so many levels and blocks to open.
pub fn whole(
    alloc: Global,
    cursor: &mut Cursor<'_>,
    levels: u32,
    depth: u32,
) -> Result<Source, Stop>
    ensures { Reads (spec.whole levels depth cursor.old) result cursor.new }
{
    let x = source(alloc, cursor, levels, depth)?;
    end(cursor)?;
    Ok(x)
}

ghost use Rattle.std.specs.Prelude.{◌≡◌, ◌≢◌, ◌⊎◌, ◌≤◌, IfOk, IfErr, Ok, Err, length};
ghost use Rattle.heco_parse.specs.Trees.{source_limit, IsTree};
ghost use Rattle.heco_syntax.specs.Wellformed.{IsWellformed};
ghost use Rattle.heco_syntax.specs.declared.tree.Source.{Source};
ghost use Rattle.heco_sources.specs.Sources.{IsSource, IsRefused, parse_answer, type_answer};
ghost use Rattle.heco_sources.specs.declared.source.SourceErr.{SourceErr as Refusal};
ghost use Rattle.heco_sources.specs.declared.source.SourceErr.TheVariants as e;

use heco_lex::{Place, Rule};
use heco_parse::{ParseErr, Source, parse};
use heco_types::{TypeErr, Typed, check};
use std::alloc::Global;

/// Why a text is no typed source.
#[derive(Clone, Copy, Debug, PartialEq, Eq)]
pub enum SourceErr {
    /// The text has more than 1,048,576 bytes.
    SourceLong,
    /// The first rule of reading that the text breaks, or else the first rule of typing, and the place of its token.
    At { rule: Rule, at: Place },
    Memory,
}

fn parse_answer(error: ParseErr) -> SourceErr
    ensures { result ≡ parse_answer error }
{
    match error {
        ParseErr::SourceLong => SourceErr::SourceLong,
        ParseErr::At { rule, at } => SourceErr::At { rule, at },
        ParseErr::Memory => SourceErr::Memory,
    }
}

fn type_answer(error: TypeErr) -> SourceErr
    ensures { result ≡ type_answer error }
{
    match error {
        TypeErr::At { rule, at } => SourceErr::At { rule, at },
        TypeErr::Memory => SourceErr::Memory,
    }
}

// The source of that tree.
fn typed(alloc: Global, text: &[u8], tree: Source) -> Result<Typed, SourceErr>
    requires short { length text.now ≤ source_limit }
    requires is { IsTree text.now tree }
    requires formed { IsWellformed tree }
    ensures source { IfOk result (IsSource text.now) }
    ensures refused { IfErr result (IsRefused text.now) }
{
    match check(alloc, tree) {
        Ok(typed) => Ok(typed),
        Err(error) => Err(type_answer(error)),
    }
}

/// The typed source that the text is.
///
/// `SourceLong` comes exactly above 1,048,576 bytes; then `At` with the first rule of reading that the text breaks
/// (`BadByte`, `Syntax`, `TooNested`), and where it breaks none with the first rule of typing.
pub fn read_source(alloc: Global, text: &[u8]) -> Result<Typed, SourceErr>
    ensures source { IfOk result (IsSource text.now) }
    ensures refused { IfErr result (IsRefused text.now) }
    ensures reads { (s : Source) → IsSource text.now s → (result ≡ Ok s) ⊎ (result ≡ Err e.Memory) }
    ensures refuses { (err : Refusal) → err ≢ e.Memory → IsRefused text.now err → (result ≡ Err err) ⊎ (result ≡ Err e.Memory) }
{
    match parse(alloc, text) {
        Ok(tree) => typed(alloc, text, tree),
        Err(error) => Err(parse_answer(error)),
    }
}

ghost use Rattle.std.specs.Prelude.{◌≡◌, ◌≢◌, ◌⊎◌, ◌≤◌, ◌<◌, ◌^◌, ℕ, ◌↔◌, Err, IfOk, IfErr, MatchResult, length};
ghost use Rattle.heco_lex.specs.Splits.{Splits, AreSpans};
ghost use Rattle.heco_lex.specs.declared.token.Token.{Token};
ghost use Rattle.heco_syntax.specs.Lexemes.{lexemes_of};
ghost use Rattle.heco_syntax.specs.Limits.{levels, depth};
ghost use Rattle.heco_syntax.specs.Sources.{IsSource};
ghost use Rattle.heco_syntax.specs.Wellformed.{IsWellformed};
ghost use Rattle.heco_syntax.specs.declared.tree.Source.{Source};
ghost use Rattle.heco_print.specs.Lines.{printed};
ghost use Rattle.heco_parse.specs.Regained.{Regains};
ghost use Rattle.heco_parse.specs.declared.read.ParseErr.{ParseErr as Refusal};
ghost use Rattle.heco_parse.specs.declared.read.ParseErr.TheVariants as e;
ghost use Rattle.heco_parse.specs.Trees.{source_limit, place_or_end, HasNoTree, IsTree, IsRefused};
ghost use Rattle.std.specs.Prelude.{List as Seq};

use heco_expressions::{Cursor, Stop};
use heco_lex::{LexErr, Place, Rule, Token, place_of, tokens};
use heco_nums::{List, Memory};
use heco_statements::whole;
use heco_syntax::{Lexeme, Source, lexemes};
use std::alloc::Global;
use thiserror::Error;

/// The most bytes that a source may have.
pub const SOURCE_LIMIT: usize = 1_048_576;

const LEVELS: u32 = 64;

const DEPTH: u32 = 8;

/// Why a text has no tree.
#[derive(Clone, Copy, Debug, PartialEq, Eq, Error)]
pub enum ParseErr {
    #[error("SourceLong")]
    SourceLong,
    /// `BadByte`, `Syntax` or `TooNested`, and the place of the first byte or token that breaks it.
    #[error("At")]
    At { rule: Rule, at: Place },
    #[error("out of memory")]
    Memory,
}

impl From<Memory> for ParseErr {
    ghost use Rattle.std.specs.Prelude.{◌≡◌};
    ghost use Rattle.heco_parse.specs.declared.read.ParseErr.TheVariants.{Memory};

    ghost from_gives = { λ _ e. e ≡ Memory };

    fn from(_: Memory) -> Self {
        ParseErr::Memory
    }
}

// The place that the cursor stands at.
fn place_here(text: &[u8], cursor: &Cursor<'_>) -> Place
    requires { length text.now ≤ 2 ^ 20 }
    ensures { result ≡ place_or_end text.now cursor.now }
{
    match cursor.place() {
        Some(at) => at,
        None => place_of(text, text.len() as u32),
    }
}

fn tree(alloc: Global, text: &[u8], found: &[Lexeme]) -> Result<Source, ParseErr>
    requires { length text.now ≤ 2 ^ 20 }
    ensures found { IfOk result (λ x. IsSource levels depth found.now x) }
    ensures only { IfOk result (λ x. (n d : ℕ) (y : Source) → IsSource n d found.now y → y ≡ x) }
    ensures refused { IfErr result (HasNoTree text.now found.now) }
{
    let mut cursor = Cursor::new(found);
    match whole(alloc, &mut cursor, LEVELS, DEPTH) {
        Ok(x) => Ok(x),
        Err(Stop::Syntax) => Err(ParseErr::At {
            rule: Rule::Syntax,
            at: place_here(text, &cursor),
        }),
        Err(Stop::TooNested) => Err(ParseErr::At {
            rule: Rule::TooNested,
            at: place_here(text, &cursor),
        }),
        Err(Stop::Memory) => Err(ParseErr::Memory),
    }
}

fn split(alloc: Global, text: &[u8]) -> Result<List<Token>, ParseErr>
    requires { length text.now ≤ 2 ^ 20 }
    ensures found { IfOk result (λ ts. Splits 0 text.now ts) }
    ensures only { IfOk result (λ ts. (us : Seq Token) → Splits 0 text.now us → us ≡ ts) }
    ensures spans { IfOk result (AreSpans text.now 0) }
    ensures refused { length text.now ≤ source_limit → IfErr result (IsRefused text.now) }
{
    match tokens(alloc, text) {
        Ok(found) => Ok(found),
        Err(LexErr::BadByte { at }) => Err(ParseErr::At {
            rule: Rule::BadByte,
            at,
        }),
        Err(LexErr::Memory) => Err(ParseErr::Memory),
    }
}

/// The tree of the text, or the first rule of reading that it breaks.
pub fn parse(alloc: Global, text: &[u8]) -> Result<Source, ParseErr>
    ensures tree { IfOk result (IsTree text.now) }
    ensures wellformed { IfOk result IsWellformed }
    ensures only { IfOk result (λ x. (n d : ℕ) (ts : Seq Token) (y : Source) → Splits 0 text.now ts → IsSource n d (lexemes_of text.now ts) y → y ≡ x) }
    ensures printed { (source : Seq ℕ) (x : Source) → IsTree source x → text.now ≡ printed x → length text.now ≤ source_limit → Regains x result }
    ensures long { (result ≡ Err ParseErr.SourceLong) ↔ (source_limit < length text.now) }
    ensures refused { IfErr result (IsRefused text.now) }
    ensures refuses { (err : Refusal) → err ≢ e.Memory → length text.now ≤ source_limit → IsRefused text.now err → (result ≡ Err err) ⊎ (result ≡ Err e.Memory) }
{
    if text.len() > SOURCE_LIMIT {
        return Err(ParseErr::SourceLong);
    }
    let found = split(alloc, text)?;
    let found = lexemes(alloc, text, found.as_slice())?;
    tree(alloc, text, found.as_slice())
}

ghost use Rattle.std.specs.Prelude.{◌≡◌, ◌≢◌, ◌⊎◌, ◌≤◌, ◌<◌, ◌^◌, ℕ, Err, IfOk, IfErr, MatchResult, length, List as Seq};
ghost use Rattle.heco_lex.specs.Places.{place_in};
ghost use Rattle.heco_lex.specs.Splits.{Splits, AreSpans};
ghost use Rattle.heco_lex.specs.Steps.{IsStep, StepRefused, IsRefusal};
ghost use Rattle.heco_lex.specs.declared.split.LexErr.{LexErr as Refusal};
ghost use Rattle.heco_lex.specs.declared.split.LexErr.TheVariants as e;
ghost use Rattle.heco_lex.specs.declared.token.Token.{Token};

use crate::piece::{Piece, first_piece};
use crate::place::{Place, place_of};
use crate::token::Token;
use heco_nums::{List, Memory};
use std::alloc::Global;
use thiserror::Error;

/// Why a text has no tokens.
#[derive(Clone, Copy, Debug, PartialEq, Eq, Error)]
pub enum LexErr {
    /// A byte that begins no token, and its place.
    #[error("BadByte")]
    BadByte { at: Place },
    #[error("out of memory")]
    Memory,
}

impl From<Memory> for LexErr {
    ghost use Rattle.std.specs.Prelude.{◌≡◌};
    ghost use Rattle.heco_lex.specs.declared.split.LexErr.TheVariants.{Memory};

    ghost from_gives = { λ _ e. e ≡ Memory };

    fn from(_: Memory) -> Self {
        LexErr::Memory
    }
}

// Takes the piece at the offset, and gives the offset behind it.
fn step(text: &[u8], at: usize, tokens: &mut List<Token>) -> Result<usize, LexErr>
    requires length { length text.now ≤ 2 ^ 20 }
    requires at { at < length text.now }
    ensures { MatchResult result (λ next. IsStep text.now at next tokens.old tokens.new) (StepRefused text.now at) }
{
    match first_piece(&text[at..]) {
        Piece::Blank => Ok(at + 1),
        Piece::Comment { len } => Ok(at + len),
        Piece::Token { kind, len } => {
            let token = Token {
                kind,
                from: at as u32,
                to: (at + len) as u32,
            };
            tokens.push(token)?;
            Ok(at + len)
        }
        Piece::Bad => Err(LexErr::BadByte {
            at: place_of(text, at as u32),
        }),
    }
}

/// The split of the text into its longest tokens, or the place of the first byte that begins none.
pub fn tokens(alloc: Global, text: &[u8]) -> Result<List<Token>, LexErr>
    requires { length text.now ≤ 2 ^ 20 }
    ensures found { IfOk result (λ ts. Splits 0 text.now ts) }
    ensures only { IfOk result (λ ts. (us : Seq Token) → Splits 0 text.now us → us ≡ ts) }
    ensures spans { IfOk result (AreSpans text.now 0) }
    ensures bad { IfErr result (IsRefusal text.now) }
    ensures refuses { (err : Refusal) → err ≢ e.Memory → IsRefusal text.now err → (result ≡ Err err) ⊎ (result ≡ Err e.Memory) }
{
    let mut tokens = List::new(alloc);
    let mut at = 0;
    while at < text.len() {
        at = step(text, at, &mut tokens)?;
    }
    Ok(tokens)
}

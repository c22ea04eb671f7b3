ghost use Rattle.std.specs.Prelude.{◌≡◌, ◌++◌, ◌∷◌, [], OnOk};
ghost use Rattle.std.specs.List.{flat_map};
ghost use Rattle.heco_lex.specs.declared.token.TokenKind.TheVariants as k;
ghost use Rattle.heco_print.specs.Spelling.{mark, parens, word_of};
ghost use Rattle.heco_print.specs.Statements as spec;

use crate::mark::{put, put_at, put_word};
use crate::statement::spell_value;
use heco_lex::TokenKind;
use heco_nums::{List, Memory};
use heco_syntax::{Def, Ident, Lexeme};
use std::alloc::Global;

fn spell_more_words(alloc: Global, words: &[Ident], out: &mut List<Lexeme>) -> Result<(), Memory>
    ensures { OnOk result (out.new ≡ out.old ++ flat_map (λ x. mark k.Comma ∷ word_of x ∷ []) words.now) }
{
    for word in words {
        put(alloc, TokenKind::Comma, out)?;
        put_word(alloc, word, out)?;
    }
    Ok(())
}

fn spell_words(alloc: Global, words: &[Ident], out: &mut List<Lexeme>) -> Result<(), Memory>
    ensures { OnOk result (out.new ≡ out.old ++ spec.words words.now) }
{
    match words.split_first() {
        Some((first, rest)) => {
            put_word(alloc, first, out)?;
            spell_more_words(alloc, rest, out)
        }
        None => Ok(()),
    }
}

// "(" [ Word { "," Word } ] ")"
fn spell_params(alloc: Global, params: &[Ident], out: &mut List<Lexeme>) -> Result<(), Memory>
    ensures { OnOk result (out.new ≡ out.old ++ parens (spec.words params.now)) }
{
    put(alloc, TokenKind::Open, out)?;
    spell_words(alloc, params, out)?;
    put(alloc, TokenKind::Close, out)
}

fn spell_definition(alloc: Global, d: &Def, out: &mut List<Lexeme>) -> Result<(), Memory>
    ensures { OnOk result (out.new ≡ out.old ++ spec.definition d.now) }
{
    put_at(alloc, TokenKind::Def, d.at, out)?;
    put_word(alloc, &d.name, out)?;
    spell_params(alloc, d.params.as_slice(), out)?;
    put(alloc, TokenKind::Assign, out)?;
    spell_value(alloc, &d.value, out)
}

/// The tokens of definitions.
pub fn spell_definitions(alloc: Global, defs: &[Def], out: &mut List<Lexeme>) -> Result<(), Memory>
    ensures { OnOk result (out.new ≡ out.old ++ flat_map spec.definition defs.now) }
{
    for d in defs {
        spell_definition(alloc, d, out)?;
    }
    Ok(())
}

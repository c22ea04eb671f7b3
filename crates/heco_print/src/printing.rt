ghost use Rattle.std.specs.Prelude.{◌≡◌, ◌++◌, ◌∷◌, [], OnOk, IfOk};
ghost use Rattle.std.specs.List.{flat_map};
ghost use Rattle.heco_lex.specs.declared.token.TokenKind.TheVariants as k;
ghost use Rattle.heco_print.specs.Lines.{printed};
ghost use Rattle.heco_print.specs.Spelling.{mark, separated};
ghost use Rattle.heco_print.specs.Statements as spec;

use crate::definition::spell_definitions;
use crate::line::line;
use crate::mark::{put, put_word};
use crate::statement::{spell_block, spell_brackets};
use heco_lex::TokenKind;
use heco_nums::{Bytes, List, Memory};
use heco_syntax::{Ident, Lexeme, Num, Param, Source};
use std::alloc::Global;

fn spell_length(alloc: Global, len: &Option<Num>, out: &mut List<Lexeme>) -> Result<(), Memory>
    ensures { OnOk result (out.new ≡ out.old ++ spec.length_given len.now) }
{
    match len {
        Some(n) => spell_brackets(alloc, *n, out),
        None => Ok(()),
    }
}

fn spell_param(alloc: Global, p: &Param, out: &mut List<Lexeme>) -> Result<(), Memory>
    ensures { OnOk result (out.new ≡ out.old ++ spec.param p.now) }
{
    let direction = if p.output {
        TokenKind::Out
    } else {
        TokenKind::In
    };
    put(alloc, direction, out)?;
    put_word(alloc, &p.name, out)?;
    spell_length(alloc, &p.len, out)
}

fn spell_more_params(alloc: Global, ports: &[Param], out: &mut List<Lexeme>) -> Result<(), Memory>
    ensures { OnOk result (out.new ≡ out.old ++ flat_map (λ p. mark k.Comma ∷ spec.param p) ports.now) }
{
    for p in ports {
        put(alloc, TokenKind::Comma, out)?;
        spell_param(alloc, p, out)?;
    }
    Ok(())
}

fn spell_params(alloc: Global, ports: &[Param], out: &mut List<Lexeme>) -> Result<(), Memory>
    ensures { OnOk result (out.new ≡ out.old ++ separated spec.param ports.now) }
{
    match ports.split_first() {
        Some((first, rest)) => {
            spell_param(alloc, first, out)?;
            spell_more_params(alloc, rest, out)
        }
        None => Ok(()),
    }
}

// "params" Word ";"
fn spell_preset_line(alloc: Global, params: &Ident, out: &mut List<Lexeme>) -> Result<(), Memory>
    ensures { OnOk result (out.new ≡ out.old ++ spec.preset_line params.now) }
{
    put(alloc, TokenKind::Params, out)?;
    put_word(alloc, params, out)?;
    put(alloc, TokenKind::Semi, out)
}

// "fn" Word "("
fn spell_name_line(alloc: Global, name: &Ident, out: &mut List<Lexeme>) -> Result<(), Memory>
    ensures { OnOk result (out.new ≡ out.old ++ spec.name_line name.now) }
{
    put(alloc, TokenKind::Fn, out)?;
    put_word(alloc, name, out)?;
    put(alloc, TokenKind::Open, out)
}

fn spell_source(alloc: Global, s: &Source, out: &mut List<Lexeme>) -> Result<(), Memory>
    ensures { OnOk result (out.new ≡ out.old ++ spec.spelled_source s.now) }
{
    spell_preset_line(alloc, &s.params, out)?;
    spell_definitions(alloc, s.defs.as_slice(), out)?;
    spell_name_line(alloc, &s.name, out)?;
    spell_params(alloc, s.ports.as_slice(), out)?;
    put(alloc, TokenKind::Close, out)?;
    spell_block(alloc, s.body.as_slice(), out)
}

/// The text of a tree.
pub fn print(alloc: Global, s: &Source) -> Result<Bytes, Memory>
    ensures { IfOk result (λ text. text ≡ printed s.now) }
{
    let mut tokens = List::new(alloc);
    spell_source(alloc, s, &mut tokens)?;
    line(alloc, tokens.as_slice())
}

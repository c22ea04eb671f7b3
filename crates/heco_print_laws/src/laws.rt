ghost use Rattle.std.specs.Prelude.{ℕ, List};
ghost use Rattle.heco_lex.specs.Splits.{Splits};
ghost use Rattle.heco_lex.specs.declared.token.Token.{Token};
ghost use Rattle.heco_print.specs.Lines.{printed};
ghost use Rattle.heco_print_laws.specs.Regained.{SpellsAlike};
ghost use Rattle.heco_syntax.specs.Lexemes.{lexemes_of};
ghost use Rattle.heco_syntax.specs.Sources.{IsSource};
ghost use Rattle.heco_syntax.specs.declared.tree.Source.{Source};

/// What a source that the tokens of a text spell is printed as spells it again up to places, with as many levels and blocks.
pub fn printed_sources_spell_alike()
    ensures { (text : List ℕ) (ts : List Token) (n d : ℕ) (x : Source) → Splits 0 text ts → IsSource n d (lexemes_of text ts) x → SpellsAlike n d (printed x) x }
{}

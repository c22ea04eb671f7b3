ghost use Rattle.std.specs.Prelude.{◌≡◌, ◌≤◌, ◌^◌, ℕ, List, length};
ghost use Rattle.heco_lex.specs.Splits.{AreSpans};
ghost use Rattle.heco_lex.specs.declared.token.Token.{Token};
ghost use Rattle.heco_syntax.specs.Kept.{IsInOrder};
ghost use Rattle.heco_syntax.specs.Lexemes.{lexemes_of};
ghost use Rattle.heco_syntax.specs.Sources.{IsSource};
ghost use Rattle.heco_syntax.specs.declared.tree.Source.{Source};

/// The names of a source that tokens of a text spell are Words of at most 2^20 bytes, and its places rise.
pub fn sources_are_in_order()
    ensures { (text : List ℕ) (at : ℕ) (ts : List Token) (n d : ℕ) (x : Source) → length text ≤ 2 ^ 20 → AreSpans text at ts → IsSource n d (lexemes_of text ts) x → IsInOrder x }
{}

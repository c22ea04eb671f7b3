ghost use Rattle.std.specs.Prelude.{◌≡◌, ◌↔◌, ℕ, List as Seq};
ghost use Rattle.heco_texts.specs.Forms.{IsAssignment, IsIdle};
ghost use Rattle.heco_texts.specs.Kinds.{Assigned, Idle, kind_of};

/// A law: a line says exactly what its form says, so that it has one reading at most. It gives a name its numbers where
/// it is blanks, a word, blanks, `=` and numbers; it says nothing where it is blanks alone or a comment; and else it
/// has no form.
pub fn line_has_one_reading(_line: &[u8])
    ensures assignment { (name : Seq ℕ) (numbers : Seq (Seq ℕ)) → IsAssignment _line.now name numbers ↔ (kind_of _line.now ≡ Assigned name numbers) }
    ensures idle { IsIdle _line.now ↔ (kind_of _line.now ≡ Idle) }
{}

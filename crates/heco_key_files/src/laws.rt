ghost use Rattle.std.specs.Prelude.{◌+◌, ℕ, Bool, List, length};
ghost use Rattle.heco_material.specs.KeyLists.{KeyLists, IsKeyMaterial};
ghost use Rattle.heco_key_files.specs.KeyFiles.{AreEvalLists, AreTurns, bit, made_key};

/// The evaluation key that is made from material within bounds, for turns of the preset, has a file: it is among the
/// keys that are written and read back.
pub fn made_keys_have_a_file()
    ensures { (n h b slots : ℕ) (relin : Bool) (turns : List ℕ) (k : KeyLists) → AreTurns slots turns → IsKeyMaterial n h b (bit relin + length turns) k
        → AreEvalLists n slots (made_key n relin turns k) }
{}

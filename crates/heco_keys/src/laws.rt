ghost use Rattle.std.specs.Prelude.{◌≡◌, ◌<◌, ◌+◌, ℕ, Bool, true, List, [], All, length, slice_index, slice_index_or, if◌then◌else◌};
ghost use lib.IntN.{ℤ};
ghost use Rattle.heco_nums.specs.MaterialBounds.{AreErrors};
ghost use Rattle.heco_scheme.specs.Keys.{key_part, square, turned_secret, AreRows, IsPublicKey, IsSwitchKey};
ghost use Rattle.heco_material.specs.declared.words.SwitchWords.{SwitchWords};
ghost use Rattle.heco_material.specs.KeyLists.{IsSwitch};
ghost use Rattle.heco_keys.specs.Made.{all_rows, purpose, source_of};

/// The keys that are made from material are keys of the secret, with errors within bounds, so the gates' clauses on
/// noise hold with them: the public key, each switch key by its place, and what the key at a place is for.
#[tactic(auto, using(crate::proofs::MadeRows::made_public, crate::proofs::MadeRows::made_rows, crate::proofs::MadeRows::made_switch, crate::proofs::MadeRows::relin_source, crate::proofs::MadeRows::turn_source))]
pub fn made_keys_are_keys()
    ensures public { (n b : ℕ) (s e : List ℤ) (a : List ℕ) → AreErrors n b e → IsPublicKey n b s (key_part n s a e) a }
    ensures rows { (n : ℕ) (s : List ℤ) (relin : Bool) (turns : List ℕ) (switch : List SwitchWords) (b : ℕ) → All (IsSwitch n b) switch → All (AreRows n) (all_rows n s relin turns switch) }
    ensures switch { (n : ℕ) (s : List ℤ) (relin : Bool) (turns : List ℕ) (switch : List SwitchWords) (b j : ℕ) → All (IsSwitch n b) switch → j < length switch
        → IsSwitchKey n b s (source_of n s (purpose relin turns j)) (slice_index_or (all_rows n s relin turns switch) j []) }
    ensures relin { (n : ℕ) (s : List ℤ) (turns : List ℕ) → source_of n s (purpose true turns 0) ≡ square n s }
    ensures turn { (n : ℕ) (s : List ℤ) (relin : Bool) (turns : List ℕ) (j : ℕ) → source_of n s (purpose relin turns ((if relin then 1 else 0) + j)) ≡ turned_secret n s (slice_index turns j) }
{}

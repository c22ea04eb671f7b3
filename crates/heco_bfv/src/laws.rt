ghost use Rattle.std.specs.Prelude.{◌≡◌, ◌<◌, ◌+◌, ◌-◌, ◌*◌, ◌%◌, ℕ, List, All, length, slice_index};
ghost use lib.IntN.{ℤ};
ghost use Rattle.heco_nums.specs.declared.preset.Preset.{Preset};
ghost use Rattle.heco_slots.specs.Messages as message;
ghost use Rattle.heco_slots.specs.Slots.{decoded, encoded};
ghost use Rattle.heco_nums.specs.MaterialBounds.{AreErrors, IsSparse};
ghost use Rattle.heco_scheme.specs.Encryption.{decrypted, encrypted};
ghost use Rattle.heco_scheme.specs.Keys.{IsPublicKey};

/// What the gates make of messages, seen as lists of slots: by these the slots of a circuit can be read off gate by
/// gate. Slot j of a turn by r is what was slot j + r, and the slots go round after N.
#[tactic(auto, using(crate::proofs::MessageSlots::laws))]
pub fn slots_of_the_messages()
    ensures input { (p : Preset) (v : List ℕ) → length v ≡ p.slots → All (λ x. x < p.t) v → decoded p (encoded p v) ≡ v }
    ensures long { (p : Preset) (m : List ℕ) → length (decoded p m) ≡ p.slots }
    ensures sum { (p : Preset) (m l : List ℕ) (j : ℕ) → j < p.slots → slice_index (decoded p (message.sum p m l)) j ≡ (slice_index (decoded p m) j + slice_index (decoded p l) j) % p.t }
    ensures difference { (p : Preset) (m l : List ℕ) (j : ℕ) → j < p.slots
        → slice_index (decoded p (message.difference p m l)) j ≡ (slice_index (decoded p m) j + (p.t - slice_index (decoded p l) j)) % p.t }
    ensures negative { (p : Preset) (m : List ℕ) (j : ℕ) → j < p.slots → slice_index (decoded p (message.opposite p m)) j ≡ (p.t - slice_index (decoded p m) j) % p.t }
    ensures multiple { (p : Preset) (c : ℕ) (m : List ℕ) (j : ℕ) → j < p.slots → slice_index (decoded p (message.multiple p c m)) j ≡ c * slice_index (decoded p m) j % p.t }
    ensures shift { (p : Preset) (c : ℕ) (m : List ℕ) (j : ℕ) → j < p.slots → slice_index (decoded p (message.raised p c m)) j ≡ (slice_index (decoded p m) j + c) % p.t }
    ensures product { (p : Preset) (m l : List ℕ) (j : ℕ) → j < p.slots → slice_index (decoded p (message.product p m l)) j ≡ slice_index (decoded p m) j * slice_index (decoded p l) j % p.t }
    ensures weighed { (p : Preset) (v m : List ℕ) (j : ℕ) → length v ≡ p.slots → All (λ x. x < p.t) v → j < p.slots
        → slice_index (decoded p (message.weighed p v m)) j ≡ slice_index v j * slice_index (decoded p m) j % p.t }
    ensures turn { (p : Preset) (r : ℕ) (m : List ℕ) (j : ℕ) → j < p.slots → slice_index (decoded p (message.turned p r m)) j ≡ slice_index (decoded p m) ((j + r) % p.slots) }
{}

/// What is encrypted within bounds under a public key of s, decryption by s gives back.
#[tactic(auto, using(crate::proofs::RoundTrip::decrypted_encrypted))]
pub fn decryption_inverts_encryption()
    ensures { (p : Preset) (s : List ℤ) (p0 p1 : List ℕ) (u e1 e2 : List ℤ) (v : List ℕ) → IsSparse p.n p.h s → IsPublicKey p.n p.b s p0 p1 → IsSparse p.n p.h u → AreErrors p.n p.b e1
        → AreErrors p.n p.b e2 → length v ≡ p.slots → All (λ x. x < p.t) v → decoded p (decrypted p s (encrypted p p0 p1 u e1 e2 (encoded p v))) ≡ v }
{}

ghost use Rattle.std.specs.Prelude.{◌≡◌, ◌<◌, ◌+◌, ◌-◌, ◌*◌, ◌%◌, ◌^◌, ℕ, List, All, length};
ghost use lib.IntN.{ℤ, pos, ◌*ℤ◌};
ghost use Rattle.heco_ring.specs.Ring.{wholes, times, plus, negate, scale, constant, turn};
ghost use Rattle.heco_ring.specs.Remainders.{rem, Same};
ghost use Rattle.heco_ring.specs.Slots.{value, slot, encode, decode, HasSlots};

/// Values depend on the coefficients modulo t alone.
#[tactic(auto, using(crate::proofs::SlotLaws::value_same))]
pub fn values_go_by_remainders()
    ensures { (n t z w : ℕ) (a b : List ℤ) → 0 < t → Same t n a b → value n t z w a ≡ value n t z w b }
{}

/// The value of a sum is the sum of the values.
#[tactic(auto, using(crate::proofs::SlotLaws::value_plus))]
pub fn value_of_a_sum()
    ensures { (n t z w : ℕ) (a b : List ℤ) → 0 < t → value n t z w (plus n a b) ≡ (value n t z w a + value n t z w b) % t }
{}

/// The value of a negative is the negative of the value.
#[tactic(auto, using(crate::proofs::SlotLaws::value_negate))]
pub fn value_of_a_negative()
    ensures { (n t z w : ℕ) (a : List ℤ) → 0 < t → value n t z w (negate n a) ≡ (t - value n t z w a) % t }
{}

/// The value of a product at an odd power of z is the product of the values.
#[tactic(auto, using(crate::proofs::SlotLaws::value_times))]
pub fn value_of_a_product()
    ensures { (n t z w : ℕ) (a b : List ℤ) → 0 < n → 0 < t → w % 2 ≡ 1 → z ^ n % t ≡ t - 1 → value n t z w (times n a b) ≡ (value n t z w a * value n t z w b) % t }
{}

/// The value of c a is c times the value.
#[tactic(auto, using(crate::proofs::SlotLaws::value_scale))]
pub fn value_of_a_multiple()
    ensures { (n t z w : ℕ) (c : ℤ) (a : List ℤ) → 0 < t → value n t z w (scale n c a) ≡ rem t (c *ℤ pos (value n t z w a)) }
{}

/// The value of a constant is the constant.
#[tactic(auto, using(crate::proofs::SlotLaws::value_constant))]
pub fn value_of_a_constant()
    ensures { (n t z w : ℕ) (c : ℤ) → 0 < n → value n t z w (constant n c) ≡ rem t c }
{}

/// The value of a turn by g at z^w, w being odd, is that at z^(g w).
#[tactic(auto, using(crate::proofs::SlotLaws::value_turn))]
pub fn value_of_a_turn()
    ensures { (n t z w g : ℕ) (a : List ℤ) → 0 < n → 0 < t → w % 2 ≡ 1 → z ^ n % t ≡ t - 1 → value n t z w (turn n a g) ≡ value n t z (g * w % (2 * n)) a }
{}

/// A turn by 3^r brings slot j + r to slot j, and the slots go round after N.
#[tactic(auto, using(crate::proofs::SlotLaws::slot_turn))]
pub fn slots_rotate()
    ensures { (n N t z r j : ℕ) (a : List ℤ) → 0 < n → 0 < t → z ^ n % t ≡ t - 1 → 3 ^ N % (2 * n) ≡ 1 → slot n t z (turn n a (3 ^ r % (2 * n))) j ≡ slot n t z a ((j + r) % N) }
{}

/// Decode after encode is the identity, whether t is prime or not.
#[tactic(auto, using(crate::proofs::RoundTrip::decode_encode))]
pub fn decode_inverts_encode()
    ensures { (n N t z ninv : ℕ) (v : List ℕ) → HasSlots n N t z ninv → length v ≡ N → All (λ x. x < t) v → decode n t z N (wholes (encode n t z ninv N v)) ≡ v }
{}

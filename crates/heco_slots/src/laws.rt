ghost use Rattle.std.specs.Prelude.{◌≡◌, ◌<◌, ◌+◌, ◌-◌, ◌*◌, ◌%◌, ℕ, List, All, length, replicate, slice_index};
ghost use Rattle.heco_nums.specs.declared.preset.Preset.{Preset};
ghost use Rattle.heco_slots.specs.Messages.{sum, difference, opposite, multiple, constant_of, raised, product, weighed, turned};
ghost use Rattle.heco_slots.specs.Rows.{first_row, second_row, slot_in, row_of, encoded_two};
ghost use Rattle.heco_slots.specs.Slots.{slot_of, decoded, encoded};

/// Decode after encode is the identity, for every preset and every N values below t, whether t is prime or not.
#[tactic(auto, using(crate::proofs::PresetSlots::decoded_encoded))]
pub fn decode_inverts_encode()
    ensures { (p : Preset) (v : List ℕ) → length v ≡ p.slots → All (λ x. x < p.t) v → decoded p (encoded p v) ≡ v }
{}

/// What is decoded at place j is slot j, and all of it is the first row.
#[tactic(auto, using(crate::proofs::PresetSlots::decoded_long, crate::proofs::PresetSlots::decoded_at, crate::proofs::SlotsInRow::first_is_decoded))]
pub fn slots_of_the_decoded()
    ensures long { (p : Preset) (m : List ℕ) → length (decoded p m) ≡ p.slots }
    ensures each { (p : Preset) (m : List ℕ) (j : ℕ) → j < p.slots → slice_index (decoded p m) j ≡ slot_of p m j }
    ensures row { (p : Preset) (m : List ℕ) → row_of p first_row m ≡ decoded p m }
{}

/// What is encoded in two rows is read back row by row, for every preset and N values below t each.
#[tactic(auto, using(crate::proofs::BothRows::first_comes_back, crate::proofs::BothRows::second_comes_back))]
pub fn both_rows_come_back()
    ensures first { (p : Preset) (v w : List ℕ) → length v ≡ p.slots → All (λ x. x < p.t) v → row_of p first_row (encoded_two p v w) ≡ v }
    ensures second { (p : Preset) (v w : List ℕ) → length w ≡ p.slots → All (λ x. x < p.t) w → row_of p (second_row p) (encoded_two p v w) ≡ w }
{}

/// Zeros in the second row add nothing: what is encoded in the first row alone has zeros in the second.
#[tactic(auto, using(crate::proofs::OneRow::encoded_beside_zeros, crate::proofs::OneRow::second_is_zero))]
pub fn one_row_leaves_the_other()
    ensures zeros { (p : Preset) (v w : List ℕ) → All (λ x. x ≡ 0) w → encoded_two p v w ≡ encoded p v }
    ensures second { (p : Preset) (v : List ℕ) → row_of p (second_row p) (encoded p v) ≡ replicate p.slots 0 }
{}

/// In every row the slots of a sum are the sums.
#[tactic(auto, using(crate::proofs::SlotsInRow::in_sum))]
pub fn slots_of_a_sum()
    ensures { (p : Preset) (e : ℕ) (a b : List ℕ) (j : ℕ) → slot_in p e (sum p a b) j ≡ (slot_in p e a j + slot_in p e b j) % p.t }
{}

/// In every row the slots of a difference are the differences.
#[tactic(auto, using(crate::proofs::SlotsInRow::in_difference))]
pub fn slots_of_a_difference()
    ensures { (p : Preset) (e : ℕ) (a b : List ℕ) (j : ℕ) → slot_in p e (difference p a b) j ≡ (slot_in p e a j + (p.t - slot_in p e b j)) % p.t }
{}

/// In every row the slots of a negative are the negatives.
#[tactic(auto, using(crate::proofs::SlotsInRow::in_opposite))]
pub fn slots_of_a_negative()
    ensures { (p : Preset) (e : ℕ) (a : List ℕ) (j : ℕ) → slot_in p e (opposite p a) j ≡ (p.t - slot_in p e a j) % p.t }
{}

/// In every row the slots of a multiple are the multiples.
#[tactic(auto, using(crate::proofs::SlotsInRow::in_multiple))]
pub fn slots_of_a_multiple()
    ensures { (p : Preset) (e c : ℕ) (a : List ℕ) (j : ℕ) → slot_in p e (multiple p c a) j ≡ c * slot_in p e a j % p.t }
{}

/// A constant is in each slot of each row, and c more at coefficient 0 is c more in each slot.
#[tactic(auto, using(crate::proofs::SlotsInRow::in_constant, crate::proofs::SlotsInRow::in_raised))]
pub fn slots_of_a_constant()
    ensures alone { (p : Preset) (e c j : ℕ) → slot_in p e (constant_of p c) j ≡ c % p.t }
    ensures more { (p : Preset) (e c : ℕ) (a : List ℕ) (j : ℕ) → slot_in p e (raised p c a) j ≡ (slot_in p e a j + c) % p.t }
{}

/// In every row, e being odd, the slots of a product are the products.
#[tactic(auto, using(crate::proofs::SlotsInRow::in_product))]
pub fn slots_of_a_product()
    ensures { (p : Preset) (e : ℕ) (a b : List ℕ) (j : ℕ) → e % 2 ≡ 1 → slot_in p e (product p a b) j ≡ slot_in p e a j * slot_in p e b j % p.t }
{}

/// In both rows the slots of what v weighs are the products by v, place by place.
#[tactic(auto, using(crate::proofs::WeighedSlots::first_weighed, crate::proofs::WeighedSlots::second_weighed))]
pub fn slots_of_the_weighed()
    ensures first { (p : Preset) (v a : List ℕ) (j : ℕ) → length v ≡ p.slots → All (λ x. x < p.t) v → j < p.slots
        → slot_in p first_row (weighed p v a) j ≡ slice_index v j * slot_in p first_row a j % p.t }
    ensures second { (p : Preset) (v a : List ℕ) (j : ℕ) → length v ≡ p.slots → All (λ x. x < p.t) v → j < p.slots
        → slot_in p (second_row p) (weighed p v a) j ≡ slice_index v j * slot_in p (second_row p) a j % p.t }
{}

/// In every row, e being odd, the turn by 3^r brings slot j + r to slot j, and the slots go round after N.
#[tactic(auto, using(crate::proofs::SlotsInRow::in_turned))]
pub fn slots_of_a_turn()
    ensures { (p : Preset) (e r : ℕ) (a : List ℕ) (j : ℕ) → e % 2 ≡ 1 → slot_in p e (turned p r a) j ≡ slot_in p e a ((j + r) % p.slots) }
{}

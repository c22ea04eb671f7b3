ghost use Rattle.std.specs.Prelude.{◌≡◌, ◌<◌, ◌≤◌, ◌*◌, ◌%◌, ◌^◌, ℕ, List, length};
ghost use lib.IntN.{ℤ};
ghost use Rattle.heco_nums.specs.declared.preset.Preset.{Preset};
ghost use Rattle.heco_ring.specs.Remainders.{reduced};
ghost use Rattle.heco_ring.specs.Ring.{wholes};
ghost use Rattle.heco_noise.specs.Rows as row;
ghost use Rattle.heco_slots.specs.Messages as message;
ghost use Rattle.heco_slots.specs.Weighing.{vector_weight};
ghost use Rattle.heco_nums.specs.MaterialBounds.{AreErrors, IsSparse};
ghost use Rattle.heco_scheme.specs.Ciphertexts.{AreTwoParts};
ghost use Rattle.heco_scheme.specs.Encryption.{decrypted, encrypted};
ghost use Rattle.heco_scheme.specs.Gates.{added, multiplied, negated, relinearised, scaled_by, shifted, subtracted, times_each, turned, weighed, weigher_words};
ghost use Rattle.heco_scheme.specs.Keys.{IsPublicKey, IsSwitchKey, square, turned_secret};
ghost use Rattle.heco_scheme.specs.Noise.{noise};

/// Encryption with words within bounds, under a public key of s with an error within bounds.
#[tactic(auto, using(crate::proofs::FreshNoise::encrypted_noise))]
pub fn noise_of_a_fresh_encryption()
    ensures { (p : Preset) (s : List ℤ) (p0 p1 : List ℕ) (u e1 e2 : List ℤ) (m : List ℕ) → IsSparse p.n p.h s → IsPublicKey p.n p.b s p0 p1 → IsSparse p.n p.h u → AreErrors p.n p.b e1
        → AreErrors p.n p.b e2 → noise p s (encrypted p p0 p1 u e1 e2 m) m ≤ row.fresh p.t p.h p.b }
{}

/// Of two or three parts each, whatever the bounds are.
#[tactic(auto, using(crate::proofs::LinearNoise::added_noise))]
pub fn noise_of_a_sum()
    ensures { (p : Preset) (s : List ℤ) (a b : List (List ℕ)) (m l : List ℕ) (E F : ℕ) → noise p s a m ≤ E → noise p s b l ≤ F → noise p s (added p a b) (message.sum p m l) ≤ row.added E F }
{}

#[tactic(auto, using(crate::proofs::LinearNoise::subtracted_noise))]
pub fn noise_of_a_difference()
    ensures { (p : Preset) (s : List ℤ) (a b : List (List ℕ)) (m l : List ℕ) (E F : ℕ) → noise p s a m ≤ E → noise p s b l ≤ F
        → noise p s (subtracted p a b) (message.difference p m l) ≤ row.added E F }
{}

/// As that of the operand.
#[tactic(auto, using(crate::proofs::LinearNoise::negated_noise))]
pub fn noise_of_a_negative()
    ensures { (p : Preset) (s : List ℤ) (a : List (List ℕ)) (m : List ℕ) (E : ℕ) → noise p s a m ≤ E → noise p s (negated p a) (message.opposite p m) ≤ E }
{}

#[tactic(auto, using(crate::proofs::LinearNoise::scaled_noise))]
pub fn noise_of_a_multiple()
    ensures { (p : Preset) (s : List ℤ) (c : ℕ) (a : List (List ℕ)) (m : List ℕ) (E : ℕ) → noise p s a m ≤ E → noise p s (scaled_by p c a) (message.multiple p c m) ≤ row.scaled_by p.t c E }
{}

/// By the vector's weight, whatever its numbers are.
#[tactic(auto, using(crate::proofs::WeighedNoise::weighed_noise))]
pub fn noise_of_a_weighed()
    ensures { (p : Preset) (s : List ℤ) (v : List ℕ) (a : List (List ℕ)) (m : List ℕ) (E : ℕ) → noise p s a m ≤ E
        → noise p s (weighed p v a) (message.weighed p v m) ≤ row.weighed (vector_weight p v) E }
{}

/// A vector may weigh by its polynomial's remainders modulo q.
#[tactic(auto, using(crate::proofs::WeighedNoise::weighed_by_words))]
pub fn words_weigh_alike()
    ensures { (p : Preset) (v : List ℕ) (a : List (List ℕ)) → times_each p (wholes (weigher_words p v)) a ≡ weighed p v a }
{}

#[tactic(auto, using(crate::proofs::LinearNoise::shifted_noise))]
pub fn noise_of_a_shift()
    ensures { (p : Preset) (s : List ℤ) (c : ℕ) (a : List (List ℕ)) (m : List ℕ) (E : ℕ) → 0 < length a → noise p s a m ≤ E → noise p s (shifted p c a) (message.raised p c m) ≤ row.shifted p.t E }
{}

/// Of operands of two parts whose bounds don't pass.
pub fn noise_of_a_product()
    ensures { (p : Preset) (s : List ℤ) (c d : List (List ℕ)) (m l : List ℕ) (E F : ℕ) → IsSparse p.n p.h s → AreTwoParts c → AreTwoParts d → row.IsQuiet E → row.IsQuiet F
        → noise p s c m ≤ E → noise p s d l ≤ F → noise p s (multiplied p c d) (message.product p m l) ≤ row.multiplied p.n p.t p.h E F }
{}

/// By a switch key from s s.
pub fn noise_of_a_relinearisation()
    ensures { (p : Preset) (s : List ℤ) (k : List (List ℕ × List ℕ)) (a : List (List ℕ)) (m : List ℕ) (E : ℕ) → IsSwitchKey p.n p.b s (square p.n s) k → noise p s a m ≤ E
        → noise p s (relinearised p k a) m ≤ row.turned p.t p.n p.b E }
{}

/// By a switch key from the turned s.
pub fn noise_of_a_turn()
    ensures { (p : Preset) (s : List ℤ) (r : ℕ) (k : List (List ℕ × List ℕ)) (a : List (List ℕ)) (m : List ℕ) (E : ℕ) → r ≤ p.slots → length a ≡ 2
        → IsSwitchKey p.n p.b s (turned_secret p.n s r) k → noise p s a m ≤ E → noise p s (turned p r k a) (message.turned p r m) ≤ row.turned p.t p.n p.b E }
{}

/// Where a bound of the noise doesn't pass, decryption gives the message modulo t.
pub fn quiet_ciphertexts_decrypt()
    ensures { (p : Preset) (s : List ℤ) (c : List (List ℕ)) (m : List ℕ) (E : ℕ) → row.IsQuiet E → noise p s c m ≤ E → decrypted p s c ≡ reduced p.t p.n (wholes m) }
{}

ghost use Rattle.std.specs.Prelude.{◌≡◌, ◌<◌, ◌*◌, ◌%◌, ℕ, List, length};
ghost use lib.IntN.{ℤ, pos};
ghost use Rattle.heco_ring.specs.Ring.{times, plus, negate, scale, constant, turn};

/// Sums are commutative and associative, and each polynomial has an opposite.
#[tactic(auto, using(crate::proofs::Linear::plus_comm, crate::proofs::Linear::plus_assoc, crate::proofs::Linear::plus_negate))]
pub fn sums_form_a_group()
    ensures commutative { (n : ℕ) (a b : List ℤ) → plus n a b ≡ plus n b a }
    ensures associative { (n : ℕ) (a b c : List ℤ) → plus n (plus n a b) c ≡ plus n a (plus n b c) }
    ensures opposite { (n : ℕ) (a : List ℤ) → plus n a (negate n a) ≡ constant n (pos 0) }
{}

/// a b is b a.
#[tactic(auto, using(crate::proofs::RingLaws::times_comm))]
pub fn product_is_commutative()
    ensures { (n : ℕ) (a b : List ℤ) → times n a b ≡ times n b a }
{}

/// (a b) c is a (b c).
#[tactic(auto, using(crate::proofs::RingLaws::times_assoc))]
pub fn product_is_associative()
    ensures { (n : ℕ) (a b c : List ℤ) → times n (times n a b) c ≡ times n a (times n b c) }
{}

/// a (b + c) is a b + a c, and c comes out of (c a) b.
#[tactic(auto, using(crate::proofs::Linear::times_plus, crate::proofs::Linear::scale_times))]
pub fn product_distributes()
    ensures sums { (n : ℕ) (a b c : List ℤ) → times n a (plus n b c) ≡ plus n (times n a b) (times n a c) }
    ensures multiples { (n : ℕ) (c : ℤ) (a b : List ℤ) → times n (scale n c a) b ≡ scale n c (times n a b) }
{}

/// 1 a is a, for each list of n coefficients.
#[tactic(auto, using(crate::proofs::Linear::one_times))]
pub fn one_is_neutral()
    ensures { (n : ℕ) (a : List ℤ) → 0 < n → length a ≡ n → times n (constant n (pos 1)) a ≡ a }
{}

/// A turn by an odd number keeps sums, products and constants.
#[tactic(auto, using(crate::proofs::Turns::turn_plus, crate::proofs::Turns::turn_product, crate::proofs::Turns::turn_constant))]
pub fn turn_is_a_homomorphism()
    ensures sums { (n g : ℕ) (a b : List ℤ) → turn n (plus n a b) g ≡ plus n (turn n a g) (turn n b g) }
    ensures products { (n g : ℕ) (a b : List ℤ) → 0 < n → g % 2 ≡ 1 → turn n (times n a b) g ≡ times n (turn n a g) (turn n b g) }
    ensures constants { (n g : ℕ) (c : ℤ) → 0 < n → turn n (constant n c) g ≡ constant n c }
{}

/// A turn by g and then by an odd h is one by g h.
#[tactic(auto, using(crate::proofs::Turns::turn_turn))]
pub fn turns_compose()
    ensures { (n g h : ℕ) (a : List ℤ) → 0 < n → h % 2 ≡ 1 → turn n (turn n a g) h ≡ turn n a (g * h % (2 * n)) }
{}

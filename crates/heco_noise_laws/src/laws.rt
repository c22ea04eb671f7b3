ghost use Rattle.std.specs.Prelude.{◌≡◌, ◌<◌, ◌≤◌, ◌+◌, ◌*◌, ◌/◌, ◌%◌, ℕ, List};
ghost use lib.IntN.{ℤ, pos, ◌-ℤ◌, ◌*ℤ◌, nat_abs};
ghost use Rattle.heco_ring.specs.Remainders.{rem, Same};
ghost use Rattle.heco_ring.specs.Ring.{at, plus, negate, scale, times, turn};
ghost use Rattle.heco_ring.specs.Sizes.{weight};
ghost use Rattle.heco_noise_laws.specs.Noise.{NoiseAtMost, size, phase, rounded, round_part};

/// Only z modulo q and m modulo t count.
#[tactic(auto, using(crate::proofs::Gates::noise_same))]
pub fn noise_goes_by_remainders()
    ensures { (n q t E : ℕ) (z y m l : List ℤ) → 0 < q * t → Same q n y z → Same t n l m → NoiseAtMost n q t z m E → NoiseAtMost n q t y l E }
{}

/// The noise of a sum is at most the sum of the noises.
#[tactic(auto, using(crate::proofs::Gates::noise_add))]
pub fn noise_of_a_sum()
    ensures { (n q t E F : ℕ) (z y m l : List ℤ) → 0 < q * t → NoiseAtMost n q t z m E → NoiseAtMost n q t y l F → NoiseAtMost n q t (plus n z y) (plus n m l) (E + F) }
{}

/// A negative has the same noise.
#[tactic(auto, using(crate::proofs::Gates::noise_neg))]
pub fn noise_of_a_negative()
    ensures { (n q t E : ℕ) (z m : List ℤ) → 0 < q * t → NoiseAtMost n q t z m E → NoiseAtMost n q t (negate n z) (negate n m) E }
{}

/// A multiple by c has c times the noise.
#[tactic(auto, using(crate::proofs::Gates::noise_scale))]
pub fn noise_of_a_multiple()
    ensures { (n q t E : ℕ) (c : ℤ) (z m : List ℤ) → 0 < q * t → NoiseAtMost n q t z m E → NoiseAtMost n q t (scale n c z) (scale n c m) (nat_abs c * E) }
{}

/// The product by a plain polynomial w has as many times the noise as the sizes of w's coefficients come to.
#[tactic(auto, using(crate::proofs::Weighing::noise_weigh))]
pub fn noise_of_a_plain_product()
    ensures { (n q t E : ℕ) (w z m : List ℤ) → 0 < q * t → NoiseAtMost n q t z m E → NoiseAtMost n q t (times n w z) (times n w m) (weight n w * E) }
{}

/// A turn by a g that has an inverse modulo 2n keeps the noise.
#[tactic(auto, using(crate::proofs::Gates::noise_turn))]
pub fn noise_of_a_turn()
    ensures { (n q t g h E : ℕ) (z m : List ℤ) → 0 < q * t → (g * h) % (2 * n) ≡ 1 → NoiseAtMost n q t z m E → NoiseAtMost n q t (turn n z g) (turn n m g) E }
{}

/// The noise of a product, from centred parts and a secret s of weight h or less.
#[tactic(auto, using(crate::proofs::Product::mul_noise))]
pub fn noise_of_a_product()
    ensures { (n q t h E F : ℕ) (s c0 c1 d0 d1 m l : List ℤ) → 0 < q → 0 < t → 2 * E < q → 2 * F < q → weight n s ≤ h
        → ((i : ℕ) → i < n → nat_abs (at c0 i) ≤ q / 2) → ((i : ℕ) → i < n → nat_abs (at c1 i) ≤ q / 2)
        → ((i : ℕ) → i < n → nat_abs (at d0 i) ≤ q / 2) → ((i : ℕ) → i < n → nat_abs (at d1 i) ≤ q / 2)
        → NoiseAtMost n q t (plus n c0 (times n c1 s)) m E → NoiseAtMost n q t (plus n d0 (times n d1 s)) l F
        → NoiseAtMost n q t (phase n s (round_part n q t (times n c0 d0)) (round_part n q t (plus n (times n c0 d1) (times n c1 d0))) (round_part n q t (times n c1 d1))) (times n m l)
        (n * ((t * (1 + h) + 1) / 2 + 1) * (E + F) + t * (1 + h + h * h)) }
{}

/// A value whose noise is below q/2 rounds to its message.
pub fn small_noise_decrypts()
    ensures { (q t E : ℕ) (z m : ℤ) → 0 < q → 0 < t → 2 * E < q → size (q * t) (pos t *ℤ z -ℤ pos q *ℤ m) ≤ E → rem t (rounded q t z) ≡ rem t m }
{}

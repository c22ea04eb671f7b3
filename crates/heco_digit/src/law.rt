ghost use Rattle.std.specs.Prelude.{◌≡◌, ◌<◌, ◌^◌, ℕ, List, All, length};
ghost use lib.IntN.{pos};
ghost use Rattle.heco_ring.specs.Remainders.{reduced};
ghost use Rattle.heco_ring.specs.Ring.{scale, sum_lists};
ghost use Rattle.heco_scheme.specs.Gates.{digits};

/// The 29 digits, each times its 4^i, add up to the polynomial.
#[tactic(auto, using(crate::proofs::DigitSums::digits_together))]
pub fn digits_add_up()
    ensures { (n : ℕ) (a : List ℕ) → length a ≡ n → All (λ x. x < 2 ^ 58) a → reduced (2 ^ 58) n (sum_lists n 29 (λ i. scale n (pos (4 ^ i)) (digits n a i))) ≡ a }
{}

//! Scalar terms, vector terms, and the written form of the one as the other: definitions and laws. A law is the
//! contract of a function that does nothing.
#![tactic(auto)]

ghost use Rattle.std.specs.Prelude.{◌≡◌, ◌<◌, false};
ghost use Rattle.heco_written.specs.World.{World};
ghost use Rattle.heco_written.specs.ScalarTerm.{ScalarTerm, IsMade, is_number};
ghost use Rattle.heco_written.specs.WrittenForm.{AtPlace, written};

/// The written form of a term that is no number, and that sums, products and negations make from numbers below the
/// modulus and elements within the slots, is one slot of a vector, and that slot has the term's value.
#[tactic(auto, using(crate::proofs::MadeTerms::written_law))]
pub fn written_form_means_the_term()
    ensures { (w : World) (x : ScalarTerm) → 0 < w.slots → 0 < w.modulus → IsMade w.modulus w.slots x → is_number x ≡ false
        → AtPlace w x (written w.modulus w.slots x).home }
{}

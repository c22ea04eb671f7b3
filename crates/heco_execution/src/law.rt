ghost use Rattle.heco_execution.specs.Laws.{CallsMeanTheirDefinitions, NumbersAreTheTermsValues, TermsAreMade};

use crate::Secrets;

/// Whatever the secrets are: a call means the last definition of its name, over the definitions before that one.
#[tactic(auto, using(crate::proofs::CallLemmas::call_last))]
pub fn calls_mean_their_definitions<S: Secrets>(m: &S)
    ensures { CallsMeanTheirDefinitions (S.ops m.now) }
{}

/// For each source and all inputs of its shapes: the numbers that come out are the values of the terms that come out,
/// which depend on the source and the modulus alone; and where a rule is broken, it is the same one at the same place.
#[tactic(auto, using(crate::proofs::Wholes::numbers_are_the_terms_values))]
pub fn numbers_are_the_values_of_terms()
    ensures { NumbersAreTheTermsValues }
{}

/// For each source and modulus, where no input has more elements than there are slots: the terms that come out are made
/// by sums, products and negations from numbers below the modulus and elements within the slots.
pub fn terms_are_made()
    ensures { TermsAreMade }
{}

ghost use Rattle.std.specs.Prelude.{◌≡◌, ◌≢◌, ◌+◌, ◌<◌, ℕ, IfSome, IfNone, IsTrue, false, All, length, slice_get, slice_index, if◌then◌else◌};
ghost use Rattle.heco_scheme.specs.Keys.{AreRows};
ghost use Rattle.heco_material.specs.KeyLists.{key_count};
ghost use Rattle.heco_keys.specs.Amounts.{AreAmounts};

use crate::switch_key::SwitchKey;
use heco_nums::{KeyNeeds, List, Preset};
use heco_poly::Poly;

/// The evaluation key: the public key, and the switch keys of its needs, that of relinearisation first and then those
/// of the turns in order. All is of its preset: the polynomials have n places, and the turns are by 1 to N - 1.
#[derive(Debug, Drop)]
pub struct Eval {
    preset: Preset,
    needs: KeyNeeds,
    p0: Poly,
    p1: Poly,
    switch: List<SwitchKey>,
    pub ghost first: { length p0 ≡ preset.n },
    pub ghost second: { length p1 ≡ preset.n },
    pub ghost amounts: { AreAmounts preset.slots needs.turns },
    pub ghost count: { length switch ≡ key_count needs },
    pub ghost pairs: { All (λ k. AreRows preset.n k.rows) switch },
}

impl Eval {
    /// The evaluation key of these parts.
    pub fn of(p: &Preset, needs: KeyNeeds, pk: (Poly, Poly), switch: List<SwitchKey>) -> Eval
        requires first { length pk.0 ≡ p.now.n }
        requires second { length pk.1 ≡ p.now.n }
        requires amounts { AreAmounts p.now.slots needs.turns }
        requires count { length switch ≡ key_count needs }
        requires pairs { All (λ k. AreRows p.now.n k.rows) switch }
        ensures preset { result.preset ≡ p.now }
        ensures needs { result.needs ≡ needs }
        ensures p0 { result.p0 ≡ pk.0 }
        ensures p1 { result.p1 ≡ pk.1 }
        ensures switch { result.switch ≡ switch }
    {
        let (p0, p1) = pk;
        Eval {
            preset: *p,
            needs,
            p0,
            p1,
            switch,
        }
    }

    pub fn preset(&self) -> &Preset
        ensures { result.now ≡ self.now.preset }
    {
        &self.preset
    }

    pub fn needs(&self) -> &KeyNeeds
        ensures { result.now ≡ self.now.needs }
    {
        &self.needs
    }

    /// The first part of the public key.
    pub fn p0(&self) -> &Poly
        ensures { result.now ≡ self.now.p0 }
    {
        &self.p0
    }

    /// The second part of the public key.
    pub fn p1(&self) -> &Poly
        ensures { result.now ≡ self.now.p1 }
    {
        &self.p1
    }

    /// All switch keys, in the order of the needs.
    pub fn switch_keys(&self) -> &[SwitchKey]
        ensures keys { result.now ≡ self.now.switch }
        ensures pairs { All (λ k. AreRows self.now.preset.n k.rows) result.now }
    {
        self.switch.as_slice()
    }

    /// The key of relinearisation: `None` exactly where the needs have none.
    pub fn relin_key(&self) -> Option<&SwitchKey>
        ensures found { IfSome result (λ k. IsTrue self.now.needs.relin × (slice_get self.now.switch 0 ≡ Some k.now)) }
        ensures pairs { IfSome result (λ k. AreRows self.now.preset.n k.now.rows) }
        ensures none { IfNone result (self.now.needs.relin ≡ false) }
    {
        if self.needs.relin {
            Some(self.switch.get(0))
        } else {
            None
        }
    }

    /// The key of the turn by r slots: `None` exactly where r is not among the turns.
    pub fn turn_key(&self, r: u16) -> Option<&SwitchKey>
        ensures found { IfSome result (λ k. (j : ℕ) × (slice_get self.now.needs.turns j ≡ Some r) × (slice_get self.now.switch ((if self.now.needs.relin then 1 else 0) + j) ≡ Some k.now)) }
        ensures pairs { IfSome result (λ k. AreRows self.now.preset.n k.now.rows) }
        ensures none { IfNone result ((j : ℕ) → j < length self.now.needs.turns → slice_index self.now.needs.turns j ≢ r) }
    {
        let before = usize::from(self.needs.relin);
        for (j, turn) in self.needs.turns.as_slice().iter().enumerate() {
            if *turn == r {
                return Some(self.switch.get(before + j));
            }
        }
        None
    }
}

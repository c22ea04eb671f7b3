ghost use Rattle.std.specs.Prelude.{◌≡◌, ◌<◌, ◌≤◌, ◌⊎◌, ℕ, List, length, IfOk, [], ◌∷◌, replicate};
ghost use lib.ListN.{get_or};
ghost use Rattle.heco_scheme.specs.Ciphertexts.{IsCiphertext};

use heco_nums::{Memory, Preset};
use heco_poly::Poly;
use std::alloc::Global;
use std::marker::Model;

/// A ciphertext of two or three parts: contracts see the list of its parts.
#[derive(Debug, Drop)]
pub struct Ct {
    pub(crate) first: Poly,
    pub(crate) second: Poly,
    pub(crate) third: Option<Poly>,
}

impl Model for Ct {
    ghost use Rattle.std.specs.Prelude.{ℕ, List};

    ghost Value = { List (List ℕ) };

    ghost use Rattle.heco_bfv.specs.Parts.{two_or_three};

    ghost view = { λ c. two_or_three c.first c.second c.third };
}

impl Ct {
    /// Zeros, for two or three parts; Memory where there is none.
    pub fn zero(alloc: Global, p: &Preset, parts: u32) -> Result<Ct, Memory>
        requires { (parts ≡ 2) ⊎ (parts ≡ 3) }
        ensures value { IfOk result (λ c. c ≡ replicate parts (replicate p.now.n 0)) }
        ensures ciphertext { IfOk result (λ c. IsCiphertext p.now.n c) }
    {
        let first = Poly::zero(alloc, p)?;
        let second = Poly::zero(alloc, p)?;
        let third = if parts == 3 {
            Some(Poly::zero(alloc, p)?)
        } else {
            None
        };
        Ok(Ct {
            first,
            second,
            third,
        })
    }

    /// The ciphertext of these two parts.
    pub fn of(c0: Poly, c1: Poly) -> Ct
        ensures value { result ≡ c0 ∷ c1 ∷ [] }
        ensures ciphertext { (n : ℕ) → length c0 ≡ n → length c1 ≡ n → IsCiphertext n result }
    {
        Ct {
            first: c0,
            second: c1,
            third: None,
        }
    }

    /// How many parts: 2 or 3.
    pub fn parts(&self) -> u32
        ensures count { result ≡ length self.now }
        ensures two_or_three { (result ≡ 2) ⊎ (result ≡ 3) }
    {
        match self.third {
            None => 2,
            Some(_) => 3,
        }
    }

    /// Part i.
    pub fn part(&self, i: u32) -> &Poly
        requires { i < length self.now }
        ensures { result.now ≡ get_or self.now i [] }
    {
        match &self.third {
            Some(third) => {
                if i == 0 {
                    &self.first
                } else if i == 1 {
                    &self.second
                } else {
                    third
                }
            }
            None => if i == 0 { &self.first } else { &self.second },
        }
    }
}

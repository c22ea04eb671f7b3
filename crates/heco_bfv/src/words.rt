ghost use Rattle.std.specs.Prelude.{◌≡◌, ◌≤◌, ◌^◌, List as Seq, IfOk, length};
ghost use lib.IntN.{ℤ};
ghost use Rattle.heco_ring.specs.Remainders.{reduced};
ghost use Rattle.heco_ring.specs.Ring.{wholes, plus};
ghost use Rattle.heco_transform.specs.Halves.{AreSums, SumsFit};

use heco_nums::{Memory, Preset, Q_MASK};
use heco_poly::Poly;
use heco_transform::{HalfSums, Transform};
use std::alloc::Global;
use std::marker::Model;

/// Room for the words of a polynomial: contracts see their list.
#[derive(Debug, Drop)]
pub struct Words {
    places: Vec<u64>,
}

impl Model for Words {
    ghost use Rattle.std.specs.Prelude.{ℕ, List};

    ghost Value = { List ℕ };

    ghost view = { λ w. w.places.items };
}

impl Words {
    /// A word for each coefficient of the preset.
    pub fn open(alloc: Global, p: &Preset) -> Result<Words, Memory>
        ensures { IfOk result (λ w. length w ≡ p.now.n) }
    {
        Ok(Words {
            places: vec![in alloc; 0; p.n as usize]?,
        })
    }

    /// Takes the coefficients of a.
    pub fn copy_in(&mut self, a: &Poly)
        requires { length a.now ≡ length self.old }
        ensures { self.new ≡ a.now }
    {
        self.places.as_mut_slice().copy_from_slice(a.as_slice());
    }

    /// Gains the polynomial of the sums, modulo 2^58. The other two are room.
    pub fn add_sums(
        &mut self,
        transform: &Transform,
        sums: &HalfSums,
        low: &mut Words,
        high: &mut Words,
    )
        requires sums { SumsFit transform.now.depth sums.now }
        requires few { sums.now.low.count ≤ 1000 }
        requires long { length self.old ≡ 2 ^ transform.now.depth }
        requires low { length low.old ≡ 2 ^ transform.now.depth }
        requires high { length high.old ≡ 2 ^ transform.now.depth }
        ensures value { let n = 2 ^ transform.now.depth in (S : Seq ℤ) → AreSums transform.now.depth S sums.now → self.new ≡ reduced (2 ^ 58) n (plus n (wholes self.old) S) }
        ensures long { length self.new ≡ length self.old }
        ensures low_long { length low.new ≡ length low.old }
        ensures high_long { length high.new ≡ length high.old }
    {
        transform.add_sums_into(
            sums,
            low.places.as_mut_slice(),
            high.places.as_mut_slice(),
            self.places.as_mut_slice(),
        );
    }

    /// The remainders of the words modulo 2^58.
    pub fn give(&self, out: &mut Poly)
        requires { length out.old ≡ length self.now }
        ensures value { out.new ≡ reduced (2 ^ 58) (length self.now) (wholes self.now) }
        ensures long { length out.new ≡ length out.old }
    {
        for k in 0..out.len() {
            out.set(k, self.places[k as usize] & Q_MASK);
        }
    }
}

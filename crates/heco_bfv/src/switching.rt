ghost use Rattle.std.specs.Prelude.{◌≡◌, ◌^◌, IfOk, length};
ghost use Rattle.heco_ring.specs.Remainders.{reduced};
ghost use Rattle.heco_ring.specs.Ring.{wholes, plus, times, sum_lists};
ghost use Rattle.heco_scheme.specs.Gates.{digits};
ghost use Rattle.heco_scheme.specs.Keys.{row, AreRows};

use crate::switcher::Switcher;
use heco_keys::SwitchKey;
use heco_nums::{Memory, Preset};
use heco_poly::Poly;
use std::alloc::Global;
use std::marker::Model;

/// The room that a switch of keys needs: contracts see its preset.
#[derive(Debug, Drop)]
pub struct SwitchRoom {
    switcher: Switcher,
}

impl Model for SwitchRoom {
    ghost use Rattle.heco_nums.specs.declared.preset.Preset.{Preset};

    ghost Value = { Preset };

    ghost view = { λ r. r.switcher.preset };
}

impl SwitchRoom {
    /// All the room; Memory where there is none.
    pub fn open(alloc: Global, p: &Preset) -> Result<SwitchRoom, Memory>
        ensures { IfOk result (λ r. r ≡ p.now) }
    {
        let switcher = Switcher::open(alloc, p)?;
        Ok(SwitchRoom { switcher })
    }

    /// c0 and c1 gain what the switch of b by the key adds: the digits of b times the rows.
    pub fn switch(&mut self, k: &SwitchKey, b: &Poly, c0: &mut Poly, c1: &mut Poly)
        requires b { length b.now ≡ self.old.n }
        requires c0 { length c0.old ≡ self.old.n }
        requires c1 { length c1.old ≡ self.old.n }
        requires key { AreRows self.old.n k.now.rows }
        ensures preset { self.new ≡ self.old }
        ensures first { let n = self.old.n in c0.new ≡ reduced (2 ^ 58) n (plus n (wholes c0.old) (sum_lists n 29 (λ i. times n (digits n b.now i) (wholes (row k.now.rows i).0)))) }
        ensures second { let n = self.old.n in c1.new ≡ reduced (2 ^ 58) n (plus n (wholes c1.old) (sum_lists n 29 (λ i. times n (digits n b.now i) (wholes (row k.now.rows i).1)))) }
    {
        self.switcher.switch(k, b, c0, c1);
    }
}

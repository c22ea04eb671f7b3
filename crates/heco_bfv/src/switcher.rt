ghost use Rattle.std.specs.Prelude.{◌≡◌, ◌+◌, ◌^◌, ◌<◌, IfOk, length};
ghost use Rattle.heco_ring.specs.Remainders.{reduced};
ghost use Rattle.heco_ring.specs.Ring.{wholes, plus, times, sum_lists};
ghost use Rattle.heco_scheme.specs.Gates.{digits};
ghost use Rattle.heco_scheme.specs.Keys.{row, AreRows};
ghost use Rattle.heco_transform.specs.Halves.{HalvesFit, SumsFit};
ghost use Rattle.heco_transform.specs.Images.{ImageFits};
ghost use Rattle.heco_bfv.specs.Switching.{AreGained};

use crate::words::Words;
use heco_keys::SwitchKey;
use heco_nums::{Memory, Preset};
use heco_poly::Poly;
use heco_transform::{HalfSums, Halves, Image, Transform};
use std::alloc::Global;

/// What a switch of keys works with: the image of a digit, those of one row for a key that keeps none, the sums of both
/// parts, and room for their words.
#[derive(Debug, Drop)]
pub struct Switcher {
    pub preset: Preset,
    transform: Transform,
    digit: Image,
    row: Halves,
    first: HalfSums,
    second: HalfSums,
    low: Words,
    high: Words,
    total: Words,
    ghost size: { 2 ^ transform.depth ≡ preset.n },
    ghost digit_fits: { ImageFits transform.depth digit },
    ghost row_fits: { HalvesFit transform.depth row },
    ghost first_fits: { SumsFit transform.depth first },
    ghost second_fits: { SumsFit transform.depth second },
    ghost low_long: { length low ≡ preset.n },
    ghost high_long: { length high ≡ preset.n },
    ghost total_long: { length total ≡ preset.n },
}

impl Switcher {
    /// All the room; Memory where there is none.
    pub fn open(alloc: Global, p: &Preset) -> Result<Switcher, Memory>
        ensures { IfOk result (λ r. r.preset ≡ p.now) }
    {
        let transform = Transform::of_preset(alloc, p)?;
        let digit = transform.new_image(alloc)?;
        let row = transform.new_halves(alloc)?;
        let first = transform.new_half_sums(alloc)?;
        let second = transform.new_half_sums(alloc)?;
        Ok(Switcher {
            preset: *p,
            transform,
            digit,
            row,
            first,
            second,
            low: Words::open(alloc, p)?,
            high: Words::open(alloc, p)?,
            total: Words::open(alloc, p)?,
        })
    }

    /// The sums gain digit i of b times both parts of row i.
    fn add_row(&mut self, k: &SwitchKey, i: u32, b: &Poly)
        requires i { i < 29 }
        requires b { length b.now ≡ self.old.preset.n }
        requires key { AreRows self.old.preset.n k.now.rows }
        requires gained { AreGained self.old.transform.depth b.now k.now.rows i self.old.first self.old.second }
        ensures preset { self.new.preset ≡ self.old.preset }
        ensures depth { self.new.transform.depth ≡ self.old.transform.depth }
        ensures gained { AreGained self.old.transform.depth b.now k.now.rows (i + 1) self.new.first self.new.second }
    {
        let transform = &self.transform;
        transform.image_of_bits(b.as_slice(), 2 * i, 2, &mut self.digit);
        match k.images(transform.depth, i) {
            Some(images) => {
                transform.add_row(&mut self.first, &self.digit, &images.0);
                transform.add_row(&mut self.second, &self.digit, &images.1);
            }
            None => {
                let (left, right) = k.row(i);
                transform.halves_into(left.as_slice(), &mut self.row);
                transform.add_row(&mut self.first, &self.digit, &self.row);
                transform.halves_into(right.as_slice(), &mut self.row);
                transform.add_row(&mut self.second, &self.digit, &self.row);
            }
        }
    }

    /// c0 and c1 gain what the switch of b by the key adds: the digits of b times the rows.
    pub fn switch(&mut self, k: &SwitchKey, b: &Poly, c0: &mut Poly, c1: &mut Poly)
        requires b { length b.now ≡ self.old.preset.n }
        requires c0 { length c0.old ≡ self.old.preset.n }
        requires c1 { length c1.old ≡ self.old.preset.n }
        requires key { AreRows self.old.preset.n k.now.rows }
        ensures preset { self.new.preset ≡ self.old.preset }
        ensures first { let n = self.old.preset.n in c0.new ≡ reduced (2 ^ 58) n (plus n (wholes c0.old) (sum_lists n 29 (λ i. times n (digits n b.now i) (wholes (row k.now.rows i).0)))) }
        ensures second { let n = self.old.preset.n in c1.new ≡ reduced (2 ^ 58) n (plus n (wholes c1.old) (sum_lists n 29 (λ i. times n (digits n b.now i) (wholes (row k.now.rows i).1)))) }
    {
        self.transform.clear_halves(&mut self.first);
        self.transform.clear_halves(&mut self.second);
        for i in 0..29 {
            self.add_row(k, i, b);
        }
        self.total.copy_in(c0);
        self.total.add_sums(&self.transform, &self.first, &mut self.low, &mut self.high);
        self.total.give(c0);
        self.total.copy_in(c1);
        self.total.add_sums(&self.transform, &self.second, &mut self.low, &mut self.high);
        self.total.give(c1);
    }
}

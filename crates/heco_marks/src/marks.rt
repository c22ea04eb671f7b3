//! A set of numbers below a bound.

ghost use Rattle.std.specs.Prelude.{◌≡◌, ◌^◌, ◌<◌, ◌≤◌, ◌==◌, ◌&&◌, ◌||◌, ℕ, Some, not, length, filter, slice_get, if◌then◌else◌, IfOk};
ghost use Rattle.heco_schedules.specs.Tables.{below};
ghost use Rattle.heco_schedules.specs.Rising.{names, RisingFrom};
ghost use Rattle.heco_marks.specs.Marks.{flag_at};

use crate::tree::{leaves_for, mend, set_leaves, sum_up};
use heco_nums::Memory;
use std::alloc::Global;
use std::marker::Model;

#[derive(Drop)]
pub struct Marks {
    leaves: usize,
    counts: Vec<u32>,
}

impl Model for Marks {
    ghost use Rattle.heco_marks.specs.Trees.{IsTree, marked};
    ghost use Rattle.heco_marks.specs.Marks.{Marked};

    ghost Value = { Marked };

    ghost view = { λ a. record { places = a.leaves; numbers = marked a.leaves a.counts.items } };

    ghost invariant = { λ a. IsTree a.leaves a.counts.items };
}

impl Marks {
    /// The numbers of the flags that are set, with a place for each flag.
    pub fn of(alloc: Global, flags: &[bool]) -> Result<Marks, Memory>
        requires { length flags.now ≤ 2 ^ 28 }
        ensures numbers { IfOk result (λ m. m.numbers ≡ filter (flag_at flags.now) (below (length flags.now))) }
        ensures places { IfOk result (λ m. length flags.now ≤ m.places) }
    {
        let leaves = leaves_for(flags.len());
        let mut counts = vec![in alloc; 0; 2 * leaves]?;
        set_leaves(&mut counts, leaves, flags);
        sum_up(&mut counts, leaves);
        Ok(Marks { leaves, counts })
    }

    /// How many numbers are marked.
    pub fn count(&self) -> u32
        ensures { result ≡ length self.now.numbers }
    {
        let _valid = self.leaves;
        self.counts[1]
    }

    /// The marked number of that place, by rising number.
    pub fn nth(&self, k: u32) -> u32
        requires { k < length self.now.numbers }
        ensures { slice_get self.now.numbers k ≡ Some result }
    {
        let mut left = k;
        let mut node = 1;
        while node < self.leaves {
            node *= 2;
            let first = self.counts[node];
            if left >= first {
                left -= first;
                node += 1;
            }
        }
        (node - self.leaves) as u32
    }

    pub fn mark(&mut self, number: u32)
        requires { number < self.old.places }
        ensures rising { RisingFrom 0 self.new.numbers }
        ensures named { (x : ℕ) → names self.new.numbers x ≡ (number == x || names self.old.numbers x) }
        ensures places { self.new.places ≡ self.old.places }
    {
        self.set(number, 1);
    }

    pub fn unmark(&mut self, number: u32)
        requires { number < self.old.places }
        ensures rising { RisingFrom 0 self.new.numbers }
        ensures named { (x : ℕ) → names self.new.numbers x ≡ (not (number == x) && names self.old.numbers x) }
        ensures places { self.new.places ≡ self.old.places }
    {
        self.set(number, 0);
    }

    fn set(&mut self, number: u32, count: u32)
        requires there { number < self.old.places }
        requires bit { count ≤ 1 }
        ensures rising { RisingFrom 0 self.new.numbers }
        ensures named { (x : ℕ) → names self.new.numbers x ≡ (if number == x then count == 1 else names self.old.numbers x) }
        ensures places { self.new.places ≡ self.old.places }
    {
        let leaf = self.leaves + number as usize;
        self.counts[leaf] = count;
        mend(&mut self.counts, leaf / 2);
    }
}

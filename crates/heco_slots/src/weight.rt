ghost use Rattle.std.specs.Prelude.{◌≡◌, ◌<◌, ◌^◌, All, length, slice_index};
ghost use Rattle.std.specs.Int.RustNames.{unsigned_abs};
ghost use Rattle.heco_nums.specs.Arithmetic as number;
ghost use Rattle.heco_ring.specs.Sizes.{sum_n};

use crate::SlotTable;
use heco_nums::centre_t;

impl SlotTable {
    ghost use Rattle.heco_slots.specs.Weighing.{vector_weight};

    /// The sum of the sizes of the coefficients of m, each centred.
    fn total_size(&self, m: &[u32]) -> u64
        requires long { length m.now ≡ self.now.preset.n }
        requires below { All (λ x. x < self.now.preset.t) m.now }
        ensures value { result ≡ sum_n self.now.preset.n (λ k. unsigned_abs (number.centre_t self.now.preset.t (slice_index m.now k))) }
        ensures small { result < 2 ^ 26 }
    {
        let mut sum = 0;
        for x in m {
            sum += centre_t(&self.preset, *x).unsigned_abs();
        }
        sum
    }

    /// The sum of the sizes of the centred coefficients of the plaintext with v in both rows, which `room` takes.
    pub fn vector_weight(&self, v: &[u32], room: &mut [u32]) -> u64
        requires v { length v.now ≡ self.now.preset.slots }
        requires below { All (λ x. x < self.now.preset.t) v.now }
        requires room { length room.old ≡ self.now.preset.n }
        ensures value { result ≡ vector_weight self.now.preset v.now }
        ensures small { result < 2 ^ 26 }
    {
        self.encode_two(v, v, room);
        self.total_size(room)
    }
}

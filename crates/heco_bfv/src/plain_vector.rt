ghost use Rattle.std.specs.Prelude.{◌≡◌, ◌<◌, ◌^◌, ℕ, All, IfOk, length, slice_index};
ghost use Rattle.heco_nums.specs.Arithmetic as number;
ghost use Rattle.heco_ring.specs.Remainders.{rem};
ghost use Rattle.heco_scheme.specs.Gates.{weigher_words};

use heco_nums::{Memory, Preset, centre_t};
use heco_poly::Poly;
use heco_slots::SlotTable;
use std::alloc::Global;

/// c, centred, modulo q.
fn word(p: &Preset, c: u32) -> u64
    requires { c < p.now.t }
    ensures value { result ≡ rem (2 ^ 58) (number.centre_t p.now.t c) }
    ensures below { result < 2 ^ 58 }
{
    centre_t(p, c).rem_euclid(1 << 58) as u64
}

/// Sets each coefficient to that of m, centred and modulo q.
fn set_all(p: &Preset, m: &[u32], out: &mut Poly)
    requires long { length m.now ≡ length out.old }
    requires below { All (λ x. x < p.now.t) m.now }
    ensures long { length out.new ≡ length out.old }
    ensures each { (k : ℕ) → k < length m.now → slice_index out.new k ≡ rem (2 ^ 58) (number.centre_t p.now.t (slice_index m.now k)) }
{
    for k in 0..out.len() {
        out.set(k, word(p, m[k as usize]));
    }
}

/// The polynomial that v weighs by, into `out`. `room` takes the plaintext with v in both rows.
fn weigher_into(table: &SlotTable, v: &[u32], room: &mut [u32], out: &mut Poly)
    requires v { length v.now ≡ table.now.preset.slots }
    requires below { All (λ x. x < table.now.preset.t) v.now }
    requires room { length room.old ≡ table.now.preset.n }
    requires out { length out.old ≡ table.now.preset.n }
    ensures { out.new ≡ weigher_words table.now.preset v.now }
{
    table.encode_two(v, v, room);
    set_all(&table.preset, room, out);
}

/// The polynomial that the plain vector v weighs by, modulo q.
pub fn weigher(alloc: Global, table: &SlotTable, v: &[u32]) -> Result<Poly, Memory>
    requires v { length v.now ≡ table.now.preset.slots }
    requires below { All (λ x. x < table.now.preset.t) v.now }
    ensures value { IfOk result (λ m. m ≡ weigher_words table.now.preset v.now) }
    ensures long { IfOk result (λ m. length m ≡ table.now.preset.n) }
{
    let p = &table.preset;
    let mut room = vec![in alloc; 0; p.n as usize]?;
    let mut out = Poly::zero(alloc, p)?;
    weigher_into(table, v, room.as_mut_slice(), &mut out);
    Ok(out)
}

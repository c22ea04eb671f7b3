ghost use Rattle.std.specs.Prelude.{◌≡◌, ◌<◌, All, OnOk, OnErr, length};
ghost use Rattle.heco_material.specs.KeyLists.{key_count, lists_of, IsEncMaterial, IsKeyMaterial};
ghost use Rattle.heco_keys.specs.Amounts.{AreAmounts};

use crate::{Scratch, decrypt, encrypt};
use heco_keys::make;
use heco_material::{EncWords, KeyWords};
use heco_nums::Memory;
use heco_slots::SlotTable;
use std::alloc::Global;

/// Makes the keys, encrypts N values by row i of the words and decrypts that into out: the values are back, whatever
/// the material within bounds. Memory where there is none.
pub fn decrypt_after_encrypt(
    alloc: Global,
    k: &KeyWords,
    w: &EncWords,
    i: u32,
    slots: &[u32],
    out: &mut [u32],
) -> Result<(), Memory>
    requires keys { let p = k.now.preset in IsKeyMaterial p.n p.h p.b (key_count k.now.needs) (lists_of k.now) }
    requires amounts { AreAmounts k.now.preset.slots k.now.needs.turns }
    requires preset { w.now.preset ≡ k.now.preset }
    requires words { let p = k.now.preset in IsEncMaterial p.n p.h p.b (length w.now.rows) w.now.rows }
    requires row { i < length w.now.rows }
    requires slots { length slots.now ≡ k.now.preset.slots }
    requires below { All (λ x. x < k.now.preset.t) slots.now }
    requires out { length out.old ≡ k.now.preset.slots }
    ensures back { OnOk result (out.new ≡ slots.now) }
    ensures kept { OnErr result (out.new ≡ out.old) }
{
    let (secret, eval) = make(alloc, k)?;
    let c = encrypt(alloc, &eval, w, i, slots)?;
    let table = SlotTable::build(alloc, &k.preset)?;
    let mut scratch = Scratch::open(alloc, &k.preset)?;
    decrypt(&secret, &table, &c, out, &mut scratch);
    Ok(())
}

ghost use Rattle.std.specs.Prelude.{◌≡◌, ℕ, ◌++◌, List as Seq, OnOk, IfOk};
ghost use Rattle.std.specs.List.{flat_map};
ghost use Rattle.heco_material.specs.declared.words.EncRow.{EncRow};
ghost use Rattle.heco_material.specs.KeyLists.{KeyLists, lists_of, IsKeyMaterial, IsEncMaterial};
ghost use Rattle.heco_material.specs.KeyFormat.{keys, keys_length, row_text, switch_text, switches_text, keys_text};
ghost use Rattle.heco_material.specs.EncFormat.{encryptions, encryptions_length, encryption_text, encryptions_text};
ghost use Rattle.heco_material.specs.MaterialFile.{read_as};

use crate::words::{EncRow, EncWords, KeyWords, SwitchRow, SwitchWords};
use heco_lists::{put_bytes, put_words};
use heco_nums::{Bytes, Memory};
use std::alloc::Global;

fn put_row(out: &mut Bytes, row: &SwitchRow) -> Result<(), Memory>
    ensures { OnOk result (out.new ≡ out.old ++ row_text row.now) }
{
    put_words(out, row.a.as_slice())?;
    put_bytes(out, row.e.as_slice())
}

#[tactic(auto, unfolding(crate::specs::KeyFormat::switch_text))]
fn put_switch(out: &mut Bytes, switch: &SwitchWords) -> Result<(), Memory>
    ensures { OnOk result (out.new ≡ out.old ++ switch_text switch.now) }
{
    for row in switch.rows.as_slice() {
        put_row(out, row)?;
    }
    Ok(())
}

#[tactic(auto, unfolding(crate::specs::KeyFormat::switches_text))]
fn put_switches(out: &mut Bytes, switches: &[SwitchWords]) -> Result<(), Memory>
    ensures { OnOk result (out.new ≡ out.old ++ switches_text switches.now) }
{
    for switch in switches {
        put_switch(out, switch)?;
    }
    Ok(())
}

/// The file of the key material: where the material is within bounds, the reader reads it back from there, and no
/// other material has this file.
pub fn write_keys(alloc: Global, k: &KeyWords) -> Result<Bytes, Memory>
    ensures text { IfOk result (λ bytes. bytes ≡ keys_text (lists_of k.now)) }
    ensures back { let p = k.now.preset in (count : ℕ) → IsKeyMaterial p.n p.h p.b count (lists_of k.now)
        → IfOk result (λ bytes. read_as (keys p.n p.h p.b count) (keys_length p.n count) bytes ≡ Ok (lists_of k.now)) }
    ensures own { let p = k.now.preset in (count : ℕ) (other : KeyLists) → IsKeyMaterial p.n p.h p.b count (lists_of k.now) → IsKeyMaterial p.n p.h p.b count other
        → IfOk result (λ bytes. bytes ≡ keys_text other → lists_of k.now ≡ other) }
{
    key_file(alloc, k)
}

fn key_file(alloc: Global, k: &KeyWords) -> Result<Bytes, Memory>
    ensures { IfOk result (λ bytes. bytes ≡ keys_text (lists_of k.now)) }
{
    let mut out = Bytes::new(alloc);
    put_bytes(&mut out, k.s.as_slice())?;
    put_words(&mut out, k.a.as_slice())?;
    put_bytes(&mut out, k.e.as_slice())?;
    put_switches(&mut out, k.switch.as_slice())?;
    Ok(out)
}

fn put_encryption(out: &mut Bytes, row: &EncRow) -> Result<(), Memory>
    ensures { OnOk result (out.new ≡ out.old ++ encryption_text row.now) }
{
    put_bytes(out, row.u.as_slice())?;
    put_bytes(out, row.e1.as_slice())?;
    put_bytes(out, row.e2.as_slice())
}

#[tactic(auto, unfolding(crate::specs::EncFormat::encryptions_text))]
fn enc_file(alloc: Global, w: &EncWords) -> Result<Bytes, Memory>
    ensures { IfOk result (λ bytes. bytes ≡ encryptions_text w.now.rows) }
{
    let mut out = Bytes::new(alloc);
    for row in w.rows.as_slice() {
        put_encryption(&mut out, row)?;
    }
    Ok(out)
}

/// The file of the encryption material: where the material is within bounds, the reader reads it back from there, and
/// no other material has this file.
pub fn write_enc(alloc: Global, w: &EncWords) -> Result<Bytes, Memory>
    ensures text { IfOk result (λ bytes. bytes ≡ encryptions_text w.now.rows) }
    ensures back { let p = w.now.preset in (count : ℕ) → IsEncMaterial p.n p.h p.b count w.now.rows
        → IfOk result (λ bytes. read_as (encryptions p.n p.h p.b count) (encryptions_length p.n count) bytes ≡ Ok w.now.rows) }
    ensures own { let p = w.now.preset in (count : ℕ) (other : Seq EncRow) → IsEncMaterial p.n p.h p.b count w.now.rows → IsEncMaterial p.n p.h p.b count other
        → IfOk result (λ bytes. bytes ≡ encryptions_text other → w.now.rows ≡ other) }
{
    enc_file(alloc, w)
}

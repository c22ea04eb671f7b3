ghost use Rattle.std.specs.Prelude.{◌≡◌, ◌<◌, All, IfOk, length};
ghost use Rattle.heco_material.specs.KeyLists.{key_count, lists_of, IsEncMaterial, IsKeyMaterial};
ghost use Rattle.heco_scheme.specs.Ciphertexts.{IsCiphertext};
ghost use Rattle.heco_scheme.specs.Keys.{AreRows};
ghost use Rattle.heco_keys.specs.Amounts.{AreAmounts};

use heco_bfv::{Ct, Scratch, decrypt, decrypt_after_encrypt, encrypt};
use heco_keys::{Eval, Secret, SwitchKey, make};
use heco_material::{EncWords, KeyWords, MatErr, read_enc, read_keys};
use heco_nums::{KeyNeeds, Memory, Preset};
use heco_slots::SlotTable;
use std::alloc::Global;

/// Who has both keys.
#[derive(Debug, Drop)]
pub struct Owner {
    pub secret: Secret,
    pub eval: Eval,
    ghost one_preset: { secret.preset ≡ eval.preset },
}

// Of what reading promises, what making keys asks.
fn key_words(alloc: Global, p: &Preset, needs: &KeyNeeds, file: &[u8]) -> Result<KeyWords, MatErr>
    ensures preset { IfOk result (λ k. k.preset ≡ p.now) }
    ensures turns { IfOk result (λ k. k.needs.turns ≡ needs.now.turns) }
    ensures material { IfOk result (λ k. IsKeyMaterial k.preset.n k.preset.h k.preset.b (key_count k.needs) (lists_of k)) }
{
    read_keys(alloc, p, needs, file)
}

// Of what reading promises, what encryption asks.
fn input_words(alloc: Global, p: &Preset, file: &[u8]) -> Result<EncWords, MatErr>
    ensures preset { IfOk result (λ w. w.preset ≡ p.now) }
    ensures material { IfOk result (λ w. IsEncMaterial p.now.n p.now.h p.now.b 1 w.rows) }
{
    read_enc(alloc, p, 1, file)
}

fn made(alloc: Global, k: &KeyWords) -> Result<Owner, Memory>
    requires material { let p = k.now.preset in IsKeyMaterial p.n p.h p.b (key_count k.now.needs) (lists_of k.now) }
    requires amounts { AreAmounts k.now.preset.slots k.now.needs.turns }
    ensures { IfOk result (λ o. o.eval.preset ≡ k.now.preset) }
{
    let (secret, eval) = make(alloc, k)?;
    Ok(Owner { secret, eval })
}

/// The keys of a file's material.
pub fn keys_of(alloc: Global, p: &Preset, needs: &KeyNeeds, file: &[u8]) -> Result<Owner, MatErr>
    requires { AreAmounts p.now.slots needs.now.turns }
    ensures { IfOk result (λ o. o.eval.preset ≡ p.now) }
{
    let k = key_words(alloc, p, needs, file)?;
    Ok(made(alloc, &k)?)
}

fn sealed_with(alloc: Global, o: &Owner, w: &EncWords, slots: &[u32]) -> Result<Ct, Memory>
    requires preset { w.now.preset ≡ o.now.eval.preset }
    requires words { let p = o.now.eval.preset in IsEncMaterial p.n p.h p.b 1 w.now.rows }
    requires slots { length slots.now ≡ o.now.eval.preset.slots }
    requires below { All (λ x. x < o.now.eval.preset.t) slots.now }
    ensures ciphertext { IfOk result (λ c. IsCiphertext o.now.eval.preset.n c) }
    ensures count { IfOk result (λ c. length c ≡ 2) }
{
    encrypt(alloc, &o.eval, w, 0, slots)
}

/// The slots, encrypted by a file's material.
pub fn sealed(alloc: Global, o: &Owner, file: &[u8], slots: &[u32]) -> Result<Ct, MatErr>
    requires slots { length slots.now ≡ o.now.eval.preset.slots }
    requires below { All (λ x. x < o.now.eval.preset.t) slots.now }
    ensures ciphertext { IfOk result (λ c. IsCiphertext o.now.eval.preset.n c) }
    ensures count { IfOk result (λ c. length c ≡ 2) }
{
    let w = input_words(alloc, o.eval.preset(), file)?;
    Ok(sealed_with(alloc, o, &w, slots)?)
}

fn opened_by(alloc: Global, o: &Owner, table: &SlotTable, c: &Ct) -> Result<Vec<u32>, Memory>
    requires table { table.now.preset ≡ o.now.eval.preset }
    requires ciphertext { IsCiphertext o.now.eval.preset.n c.now }
{
    let p = o.secret.preset();
    let mut out = vec![in alloc; 0; p.slots as usize]?;
    let mut scratch = Scratch::open(alloc, p)?;
    decrypt(&o.secret, table, c, out.as_mut_slice(), &mut scratch);
    Ok(out)
}

/// The slots that the ciphertext decrypts to.
pub fn opened(alloc: Global, o: &Owner, c: &Ct) -> Result<Vec<u32>, Memory>
    requires { IsCiphertext o.now.eval.preset.n c.now }
{
    let table = SlotTable::build(alloc, o.secret.preset())?;
    opened_by(alloc, o, &table, c)
}

fn back_by(alloc: Global, k: &KeyWords, w: &EncWords, slots: &[u32]) -> Result<Vec<u32>, Memory>
    requires keys { let p = k.now.preset in IsKeyMaterial p.n p.h p.b (key_count k.now.needs) (lists_of k.now) }
    requires amounts { AreAmounts k.now.preset.slots k.now.needs.turns }
    requires preset { w.now.preset ≡ k.now.preset }
    requires words { let p = k.now.preset in IsEncMaterial p.n p.h p.b 1 w.now.rows }
    requires slots { length slots.now ≡ k.now.preset.slots }
    requires below { All (λ x. x < k.now.preset.t) slots.now }
{
    let mut out = vec![in alloc; 0; k.preset.slots as usize]?;
    decrypt_after_encrypt(alloc, k, w, 0, slots, out.as_mut_slice())?;
    Ok(out)
}

/// What encrypting by two files' material and decrypting gives.
pub fn back(
    alloc: Global,
    p: &Preset,
    needs: &KeyNeeds,
    keys: &[u8],
    words: &[u8],
    slots: &[u32],
) -> Result<Vec<u32>, MatErr>
    requires amounts { AreAmounts p.now.slots needs.now.turns }
    requires slots { length slots.now ≡ p.now.slots }
    requires below { All (λ x. x < p.now.t) slots.now }
{
    let k = key_words(alloc, p, needs, keys)?;
    let w = input_words(alloc, p, words)?;
    Ok(back_by(alloc, &k, &w, slots)?)
}

/// The key to relinearise.
pub fn relin_key(o: &Owner) -> Result<&SwitchKey, &'static str>
    ensures { IfOk result (λ k. AreRows o.now.eval.preset.n k.now.rows) }
{
    match o.eval.relin_key() {
        Some(k) => Ok(k),
        None => Err("no key to relinearise"),
    }
}

/// The key to turn by r.
pub fn turn_key(o: &Owner, r: u16) -> Result<&SwitchKey, &'static str>
    ensures { IfOk result (λ k. AreRows o.now.eval.preset.n k.now.rows) }
{
    match o.eval.turn_key(r) {
        Some(k) => Ok(k),
        None => Err("no key to turn"),
    }
}

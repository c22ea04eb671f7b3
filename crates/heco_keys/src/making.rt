ghost use Rattle.std.specs.Prelude.{◌≡◌, ◌<◌, IfOk, length, map};
ghost use Rattle.heco_scheme.specs.Keys.{key_part};
ghost use Rattle.heco_material.specs.KeyLists.{key_count, lists_of, IsKeyMaterial};
ghost use Rattle.heco_keys.specs.Amounts.{AreAmounts};
ghost use Rattle.heco_keys.specs.Made.{purpose, all_rows};

use crate::coefficients::poly_of;
use crate::eval::Eval;
use crate::make_switch::make_switch;
use crate::masked::masked;
use crate::secret::Secret;
use crate::switch_key::SwitchKey;
use heco_material::KeyWords;
use heco_nums::{KeyNeeds, List, Memory};
use heco_transform::Transform;
use std::alloc::Global;

/// What switch key j is for: `None` to relinearise, else the amount of its turn.
#[tactic(auto, unfolding(crate::specs::Made::purpose))]
fn purpose(needs: &KeyNeeds, j: usize) -> Option<u16>
    requires { j < key_count needs.now }
    ensures { result ≡ purpose needs.now.relin needs.now.turns j }
{
    let turns = needs.turns.as_slice();
    if !needs.relin {
        return Some(turns[j]);
    }
    if j == 0 { None } else { Some(turns[j - 1]) }
}

fn make_switches(alloc: Global, k: &KeyWords) -> Result<List<SwitchKey>, Memory>
    requires { IsKeyMaterial k.now.preset.n k.now.preset.h k.now.preset.b (key_count k.now.needs) (lists_of k.now) }
    ensures count { IfOk result (λ keys. length keys ≡ key_count k.now.needs) }
    ensures rows { IfOk result (λ keys. map (λ key. key.rows) keys ≡ all_rows k.now.preset.n k.now.s k.now.needs.relin k.now.needs.turns k.now.switch) }
{
    let transform = Transform::of_preset(alloc, &k.preset)?;
    let mut keys = List::new(alloc);
    for j in 0..k.switch.len() {
        let kind = purpose(&k.needs, j);
        let words = k.switch.get(j);
        let key = make_switch(alloc, &k.preset, &transform, k.s.as_slice(), kind, words)?;
        keys.push(key)?;
    }
    Ok(keys)
}

/// The keys of the material: the secret, the public key (-(a s + e), a), and for each need its switch key, whose pair i
/// is (-(a_i s + e_i) + 4^i s', a_i), in the order of the needs.
pub fn make(alloc: Global, k: &KeyWords) -> Result<(Secret, Eval), Memory>
    requires material { IsKeyMaterial k.now.preset.n k.now.preset.h k.now.preset.b (key_count k.now.needs) (lists_of k.now) }
    requires amounts { AreAmounts k.now.preset.slots k.now.needs.turns }
    ensures secret { IfOk result (λ x. (x.0.preset ≡ k.now.preset) × (x.0.places ≡ k.now.s)) }
    ensures preset { IfOk result (λ x. x.1.preset ≡ k.now.preset) }
    ensures needs { IfOk result (λ x. (x.1.needs.relin ≡ k.now.needs.relin) × (x.1.needs.turns ≡ k.now.needs.turns)) }
    ensures first { IfOk result (λ x. x.1.p0 ≡ key_part k.now.preset.n k.now.s k.now.a k.now.e) }
    ensures second { IfOk result (λ x. x.1.p1 ≡ k.now.a) }
    ensures switch { IfOk result (λ x. map (λ key. key.rows) x.1.switch ≡ all_rows k.now.preset.n k.now.s k.now.needs.relin k.now.needs.turns k.now.switch) }
{
    let p = &k.preset;
    let p1 = poly_of(alloc, p, k.a.as_slice())?;
    let p0 = masked(alloc, p, k.s.as_slice(), &p1, k.e.as_slice())?;
    let switch = make_switches(alloc, k)?;
    let needs = k.needs.copy(alloc)?;
    let secret = Secret::of(p, List::from_slice(alloc, k.s.as_slice())?)?;
    Ok((secret, Eval::of(p, needs, (p0, p1), switch)))
}

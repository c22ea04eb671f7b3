ghost use Rattle.std.specs.Prelude.{◌≡◌, [], IfOk};
ghost use Rattle.heco_material.specs.KeyLists.{key_count, lists_of, IsKeyMaterial};

use crate::constant::constant;
use heco_keys::{Eval, Secret, make};
use heco_material::{KeyWords, MatErr, read_keys};
use heco_nums::{KeyNeeds, List, Preset};
use std::alloc::Global;
use std::test::Fail;

/// Material of p8 with the secret 1, the word 5 at place 0, and no error.
fn smallest(alloc: Global, p: &Preset) -> Result<KeyWords, MatErr>
    ensures material { IfOk result (λ k. IsKeyMaterial k.preset.n k.preset.h k.preset.b (key_count k.needs) (lists_of k)) }
    ensures turns { IfOk result (λ k. k.needs.turns ≡ []) }
{
    let mut file = [0u8; 160];
    file[0] = 1;
    file[23] = 5;
    let needs = KeyNeeds {
        relin: false,
        turns: List::new(alloc),
    };
    read_keys(alloc, p, &needs, file.as_slice())
}

fn made(alloc: Global, p: &Preset) -> Result<(Secret, Eval), MatErr> {
    let words = smallest(alloc, p)?;
    Ok(make(alloc, &words)?)
}

#[test]
fn keys_of_one_word(rt: HostRuntime) -> Result<(), Fail> {
    let p8 = Preset::by_id(1).ok_or("no preset")?;
    let (secret, eval) = made(rt.alloc(), &p8)?;
    assert_eq!(rt; constant(eval.p0()), Some(0x03ff_ffff_ffff_fffb));
    assert_eq!(rt; constant(eval.p1()), Some(5));
    assert_eq!(rt; secret.as_slice().first().copied(), Some(1));
    assert!(rt; eval.relin_key().is_none() && eval.turn_key(1).is_none());
    Ok(())
}

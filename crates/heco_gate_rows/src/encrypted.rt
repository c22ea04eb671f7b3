ghost use Rattle.std.specs.Prelude.{◌≡◌, ◌<◌, All, IfOk, length};
ghost use Rattle.heco_keys.specs.Amounts.{AreAmounts};
ghost use Rattle.heco_nums.specs.Needs.{IsRising};
ghost use Rattle.heco_scheme.specs.Ciphertexts.{IsCiphertext};

use crate::decrypted::{opened_product, opened_turn, opened_weighed};
use crate::gates::constant;
use crate::material::{file, key_file, second_words};
use crate::owner::{Owner, back, keys_of, opened, sealed};
use heco_bfv::Ct;
use heco_nums::{KeyNeeds, List, Preset};
use std::alloc::Global;
use std::test::Fail;

// The smallest preset.
fn smallest() -> Result<Preset, &'static str>
    ensures slots { IfOk result (λ p. p.slots ≡ 8) }
    ensures modulus { IfOk result (λ p. p.t ≡ 257) }
{
    let p = Preset::by_id(1).ok_or("no preset")?;
    if p.slots != 8 || p.t != 257 {
        return Err("another preset");
    }
    Ok(p)
}

fn owner(alloc: Global, p: &Preset, relin: bool, turns: &[u16], file: &[u8]) -> Result<Owner, Fail>
    requires rising { IsRising turns.now }
    requires amounts { AreAmounts p.now.slots turns.now }
    ensures { IfOk result (λ o. o.eval.preset ≡ p.now) }
{
    let turns = List::from_slice(alloc, turns)?;
    let needs = KeyNeeds { relin, turns };
    Ok(keys_of(alloc, p, &needs, file)?)
}

fn owner_by_file(alloc: Global, p: &Preset, relin: bool, turns: &[u16]) -> Result<Owner, Fail>
    requires rising { IsRising turns.now }
    requires amounts { AreAmounts p.now.slots turns.now }
    ensures { IfOk result (λ o. o.eval.preset ≡ p.now) }
{
    let file = key_file(alloc)?;
    owner(alloc, p, relin, turns, file.as_slice())
}

fn product(alloc: Global, p: &Preset, a: &[u32], b: &[u32]) -> Result<Vec<u32>, Fail>
    requires a { length a.now ≡ p.now.slots }
    requires a_below { All (λ x. x < p.now.t) a.now }
    requires b { length b.now ≡ p.now.slots }
    requires b_below { All (λ x. x < p.now.t) b.now }
{
    let o = owner_by_file(alloc, p, true, [].as_slice())?;
    opened_product(alloc, &o, a, b)
}

// The slots turned by one.
fn turn(alloc: Global, p: &Preset, a: &[u32]) -> Result<Vec<u32>, Fail>
    requires some { 1 < p.now.slots }
    requires slots { length a.now ≡ p.now.slots }
    requires below { All (λ x. x < p.now.t) a.now }
{
    let o = owner_by_file(alloc, p, false, [1].as_slice())?;
    opened_turn(alloc, &o, 1, a)
}

// The slots a times the plain vector v.
fn weighed(alloc: Global, p: &Preset, v: &[u32], a: &[u32]) -> Result<Vec<u32>, Fail>
    requires v { length v.now ≡ p.now.slots }
    requires v_below { All (λ x. x < p.now.t) v.now }
    requires a { length a.now ≡ p.now.slots }
    requires a_below { All (λ x. x < p.now.t) a.now }
{
    let o = owner_by_file(alloc, p, true, [].as_slice())?;
    opened_weighed(alloc, &o, v, a)
}

// What encrypting and decrypting at once gives.
fn back_by(alloc: Global, p: &Preset, keys: &[u8], a: &[u32]) -> Result<Vec<u32>, Fail>
    requires slots { length a.now ≡ p.now.slots }
    requires below { All (λ x. x < p.now.t) a.now }
{
    let needs = KeyNeeds {
        relin: true,
        turns: List::new(alloc),
    };
    let words = second_words(alloc)?;
    Ok(back(alloc, p, &needs, keys, words.as_slice(), a)?)
}

fn back_again(alloc: Global, p: &Preset, a: &[u32]) -> Result<Vec<u32>, Fail>
    requires slots { length a.now ≡ p.now.slots }
    requires below { All (λ x. x < p.now.t) a.now }
{
    let keys = key_file(alloc)?;
    back_by(alloc, p, keys.as_slice(), a)
}

fn given_product(alloc: Global) -> Result<Vec<u32>, Fail> {
    let p8 = smallest()?;
    let a = [1, 2, 3, 4, 5, 6, 7, 8];
    let b = [256, 100, 3, 0, 5, 6, 7, 200];
    product(alloc, &p8, a.as_slice(), b.as_slice())
}

fn given_turn(alloc: Global) -> Result<Vec<u32>, Fail> {
    let p8 = smallest()?;
    turn(alloc, &p8, [1, 2, 3, 4, 5, 6, 7, 8].as_slice())
}

fn given_weighed(alloc: Global) -> Result<Vec<u32>, Fail> {
    let p8 = smallest()?;
    let v = [2, 3, 0, 256, 200, 1, 0, 7];
    weighed(
        alloc,
        &p8,
        v.as_slice(),
        [4, 5, 6, 7, 8, 9, 0, 256].as_slice(),
    )
}

fn given_back(alloc: Global) -> Result<Vec<u32>, Fail> {
    let p8 = smallest()?;
    back_again(alloc, &p8, [1, 0, 256, 3, 5, 128, 129, 100].as_slice())
}

#[test]
fn a_product_relinearised(rt: HostRuntime) -> Result<(), Fail> {
    let wanted = [256, 200, 9, 0, 25, 36, 49, 58];
    assert_eq!(rt; given_product(rt.alloc())?.as_slice(), wanted.as_slice());
    Ok(())
}

#[test]
fn a_turn_by_one(rt: HostRuntime) -> Result<(), Fail> {
    assert_eq!(rt;
        given_turn(rt.alloc())?.as_slice(),
        [2, 3, 4, 5, 6, 7, 8, 1].as_slice()
    );
    Ok(())
}

#[test]
fn an_input_weighed_by_a_plain_vector(rt: HostRuntime) -> Result<(), Fail> {
    let wanted = [8, 15, 0, 250, 58, 9, 0, 250];
    assert_eq!(rt; given_weighed(rt.alloc())?.as_slice(), wanted.as_slice());
    Ok(())
}

#[test]
fn keys_encryption_and_decryption_at_once(rt: HostRuntime) -> Result<(), Fail> {
    let wanted = [1, 0, 256, 3, 5, 128, 129, 100];
    assert_eq!(rt; given_back(rt.alloc())?.as_slice(), wanted.as_slice());
    Ok(())
}

fn owner_by_hand(alloc: Global, p: &Preset) -> Result<Owner, Fail>
    ensures { IfOk result (λ o. o.eval.preset ≡ p.now) }
{
    let keys = file(alloc, 160, [(0, 1), (23, 5)].as_slice())?;
    owner(alloc, p, false, [].as_slice(), keys.as_slice())
}

fn sealed_by_hand(alloc: Global, o: &Owner) -> Result<Ct, Fail>
    requires slots { o.now.eval.preset.slots ≡ 8 }
    requires modulus { o.now.eval.preset.t ≡ 257 }
    ensures { IfOk result (λ c. IsCiphertext o.now.eval.preset.n c) }
{
    let words = file(alloc, 48, [(0, 1), (16, 2), (32, 255)].as_slice())?;
    Ok(sealed(alloc, o, words.as_slice(), [0; 8].as_slice())?)
}

fn are_zeros(alloc: Global, o: &Owner, c: &Ct) -> Result<bool, Fail>
    requires { IsCiphertext o.now.eval.preset.n c.now }
{
    let found = opened(alloc, o, c)?;
    Ok(found.as_slice() == [0; 8].as_slice())
}

// The constants of both parts of zeros that are encrypted, and whether they decrypt to zeros.
fn told(alloc: Global, o: &Owner) -> Result<(Option<u64>, Option<u64>, bool), Fail>
    requires slots { o.now.eval.preset.slots ≡ 8 }
    requires modulus { o.now.eval.preset.t ≡ 257 }
{
    let c = sealed_by_hand(alloc, o)?;
    Ok((constant(&c, 0), constant(&c, 1), are_zeros(alloc, o, &c)?))
}

fn told_by_hand(alloc: Global) -> Result<(Option<u64>, Option<u64>, bool), Fail> {
    let p8 = smallest()?;
    let o = owner_by_hand(alloc, &p8)?;
    told(alloc, &o)
}

#[test]
fn an_encryption_by_hand(rt: HostRuntime) -> Result<(), Fail> {
    let found = told_by_hand(rt.alloc())?;
    assert_eq!(rt; found, (Some(0x03fffffffffffffd), Some(4), true));
    Ok(())
}

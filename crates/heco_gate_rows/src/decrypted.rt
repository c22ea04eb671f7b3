ghost use Rattle.std.specs.Prelude.{◌≡◌, ◌<◌, ◌≤◌, All, IfOk, length};
ghost use Rattle.heco_scheme.specs.Ciphertexts.{IsCiphertext};

use crate::gates::{product, relinearised, turned, weighed};
use crate::material::{first_words, second_words};
use crate::owner::{Owner, opened, relin_key, sealed, turn_key};
use heco_bfv::Ct;
use std::alloc::Global;
use std::test::Fail;

fn first(alloc: Global, o: &Owner, slots: &[u32]) -> Result<Ct, Fail>
    requires slots { length slots.now ≡ o.now.eval.preset.slots }
    requires below { All (λ x. x < o.now.eval.preset.t) slots.now }
    ensures ciphertext { IfOk result (λ c. IsCiphertext o.now.eval.preset.n c) }
    ensures count { IfOk result (λ c. length c ≡ 2) }
{
    let words = first_words(alloc)?;
    Ok(sealed(alloc, o, words.as_slice(), slots)?)
}

fn second(alloc: Global, o: &Owner, slots: &[u32]) -> Result<Ct, Fail>
    requires slots { length slots.now ≡ o.now.eval.preset.slots }
    requires below { All (λ x. x < o.now.eval.preset.t) slots.now }
    ensures ciphertext { IfOk result (λ c. IsCiphertext o.now.eval.preset.n c) }
    ensures count { IfOk result (λ c. length c ≡ 2) }
{
    let words = second_words(alloc)?;
    Ok(sealed(alloc, o, words.as_slice(), slots)?)
}

fn product_with(alloc: Global, o: &Owner, a: &Ct, b: &[u32]) -> Result<Ct, Fail>
    requires a { IsCiphertext o.now.eval.preset.n a.now }
    requires a_two { length a.now ≡ 2 }
    requires b { length b.now ≡ o.now.eval.preset.slots }
    requires b_below { All (λ x. x < o.now.eval.preset.t) b.now }
    ensures ciphertext { IfOk result (λ c. IsCiphertext o.now.eval.preset.n c) }
    ensures count { IfOk result (λ c. length c ≡ 3) }
{
    let b = second(alloc, o, b)?;
    Ok(product(alloc, o.eval.preset(), a, &b)?)
}

/// The product of the encrypted slots, of three parts.
fn sealed_product(alloc: Global, o: &Owner, a: &[u32], b: &[u32]) -> Result<Ct, Fail>
    requires a { length a.now ≡ o.now.eval.preset.slots }
    requires a_below { All (λ x. x < o.now.eval.preset.t) a.now }
    requires b { length b.now ≡ o.now.eval.preset.slots }
    requires b_below { All (λ x. x < o.now.eval.preset.t) b.now }
    ensures ciphertext { IfOk result (λ c. IsCiphertext o.now.eval.preset.n c) }
    ensures count { IfOk result (λ c. length c ≡ 3) }
{
    let a = first(alloc, o, a)?;
    product_with(alloc, o, &a, b)
}

fn relinearised_by(alloc: Global, o: &Owner, wide: &Ct) -> Result<Ct, Fail>
    requires wide { IsCiphertext o.now.eval.preset.n wide.now }
    requires three { length wide.now ≡ 3 }
    ensures { IfOk result (λ c. IsCiphertext o.now.eval.preset.n c) }
{
    Ok(relinearised(alloc, o.eval.preset(), relin_key(o)?, wide)?)
}

fn opened_wide(alloc: Global, o: &Owner, wide: &Ct) -> Result<Vec<u32>, Fail>
    requires wide { IsCiphertext o.now.eval.preset.n wide.now }
    requires three { length wide.now ≡ 3 }
{
    let c = relinearised_by(alloc, o, wide)?;
    Ok(opened(alloc, o, &c)?)
}

/// What the relinearised product of the encrypted slots decrypts to.
pub fn opened_product(alloc: Global, o: &Owner, a: &[u32], b: &[u32]) -> Result<Vec<u32>, Fail>
    requires a { length a.now ≡ o.now.eval.preset.slots }
    requires a_below { All (λ x. x < o.now.eval.preset.t) a.now }
    requires b { length b.now ≡ o.now.eval.preset.slots }
    requires b_below { All (λ x. x < o.now.eval.preset.t) b.now }
{
    let wide = sealed_product(alloc, o, a, b)?;
    opened_wide(alloc, o, &wide)
}

fn turned_by(alloc: Global, o: &Owner, r: u16, a: &Ct) -> Result<Ct, Fail>
    requires r { r ≤ o.now.eval.preset.slots }
    requires a { IsCiphertext o.now.eval.preset.n a.now }
    requires two { length a.now ≡ 2 }
    ensures { IfOk result (λ c. IsCiphertext o.now.eval.preset.n c) }
{
    Ok(turned(alloc, o.eval.preset(), r, turn_key(o, r)?, a)?)
}

fn opened_turned(alloc: Global, o: &Owner, r: u16, a: &Ct) -> Result<Vec<u32>, Fail>
    requires r { r ≤ o.now.eval.preset.slots }
    requires a { IsCiphertext o.now.eval.preset.n a.now }
    requires two { length a.now ≡ 2 }
{
    let c = turned_by(alloc, o, r, a)?;
    Ok(opened(alloc, o, &c)?)
}

/// What the encrypted slots, turned by r, decrypt to.
pub fn opened_turn(alloc: Global, o: &Owner, r: u16, slots: &[u32]) -> Result<Vec<u32>, Fail>
    requires slots { length slots.now ≡ o.now.eval.preset.slots }
    requires below { All (λ x. x < o.now.eval.preset.t) slots.now }
    requires r { r ≤ o.now.eval.preset.slots }
{
    let a = first(alloc, o, slots)?;
    opened_turned(alloc, o, r, &a)
}

fn opened_by_weight(alloc: Global, o: &Owner, v: &[u32], a: &Ct) -> Result<Vec<u32>, Fail>
    requires v { length v.now ≡ o.now.eval.preset.slots }
    requires v_below { All (λ x. x < o.now.eval.preset.t) v.now }
    requires a { IsCiphertext o.now.eval.preset.n a.now }
{
    let c = weighed(alloc, o.eval.preset(), v, a)?;
    Ok(opened(alloc, o, &c)?)
}

/// What the encrypted slots, weighed by the plain vector v, decrypt to.
pub fn opened_weighed(alloc: Global, o: &Owner, v: &[u32], slots: &[u32]) -> Result<Vec<u32>, Fail>
    requires v { length v.now ≡ o.now.eval.preset.slots }
    requires v_below { All (λ x. x < o.now.eval.preset.t) v.now }
    requires slots { length slots.now ≡ o.now.eval.preset.slots }
    requires below { All (λ x. x < o.now.eval.preset.t) slots.now }
{
    let a = first(alloc, o, slots)?;
    opened_by_weight(alloc, o, v, &a)
}

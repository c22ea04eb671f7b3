ghost use Rattle.std.specs.Prelude.{◌≡◌, length};

use crate::{Poly, plain, product, residue, sparse};
use heco_nums::{Memory, Preset};
use std::alloc::Global;
use std::process::Abort;
use std::test::Fail;

/// (x^(n-1) - 1) (x - 3) is 2 - x - 3 x^(n-1), by all three products.
fn three_products_agree(rt: &impl Abort, alloc: Global, p: &Preset) -> Result<(), Memory> {
    let last = p.n as usize - 1;
    let mut small = vec![in alloc; 0i8; p.n as usize]?;
    small[0] = -1;
    small[last] = 1;
    let mut a = Poly::zero(alloc, p)?;
    Poly::small_into(small.as_slice(), &mut a);
    let mut b = Poly::zero(alloc, p)?;
    b.set(0, (1 << 58) - 3);
    b.set(1, 1);
    let mut by_rows = Poly::zero(alloc, p)?;
    let mut plain = Poly::zero(alloc, p)?;
    let mut sparse = Poly::zero(alloc, p)?;
    Poly::mul_into(&a, &b, &mut by_rows);
    Poly::mul_plain_into(&a, &b, &mut plain);
    Poly::mul_sparse_into(small.as_slice(), &b, &mut sparse);
    let mut wanted = Poly::zero(alloc, p)?;
    wanted.set(0, 2);
    wanted.set(1, (1 << 58) - 1);
    wanted.set(p.n - 1, (1 << 58) - 3);
    assert_eq!(rt; by_rows.as_slice(), wanted.as_slice());
    assert_eq!(rt; plain.as_slice(), wanted.as_slice());
    assert_eq!(rt; sparse.as_slice(), wanted.as_slice());
    Ok(())
}

#[test]
fn the_three_products_agree_at_each_degree(rt: HostRuntime) -> Result<(), Fail> {
    for id in 1..6 {
        let p = Preset::by_id(id).ok_or("no preset")?;
        three_products_agree(&rt, rt.alloc(), &p)?;
    }
    Ok(())
}

#[test]
fn x_to_the_15_times_x_is_minus_1(rt: HostRuntime) -> Result<(), Fail> {
    let p = Preset::by_id(1).ok_or("no preset")?;
    let mut a = Poly::zero(rt.alloc(), &p)?;
    let mut b = Poly::zero(rt.alloc(), &p)?;
    let mut product = Poly::zero(rt.alloc(), &p)?;
    a.set(p.n - 1, 1);
    b.set(1, 1);
    Poly::mul_into(&a, &b, &mut product);
    assert_eq!(rt; p.n, 16);
    assert_eq!(rt; product.get(0), (1 << 58) - 1);
    assert_eq!(rt; product.get(1), 0);
    Ok(())
}

/// Words below 2^58 that look random, after Knuth's linear congruence.
fn fill(words: &mut [u64]) {
    let mut x = 1u64;
    for word in words.iter_mut() {
        x = x
            .wrapping_mul(6364136223846793005)
            .wrapping_add(1442695040888963407);
        *word = x >> 6;
    }
}

/// Words from -2 to 2, and their remainders.
fn fill_small(small: &mut [i8], words: &mut [u64])
    requires { length words.old ≡ length small.old }
{
    for i in 0..small.len() {
        small[i] = (i % 5) as i8 - 2;
        words[i] = residue::of_word(small[i]);
    }
}

/// The products by lanes, plain and sparse of n places.
fn bodies_agree(rt: &impl Abort, alloc: Global, n: usize) -> Result<(), Memory> {
    let mut small = vec![in alloc; 0i8; n]?;
    let mut a = vec![in alloc; 0u64; n]?;
    let mut b = vec![in alloc; 0u64; n]?;
    let mut by_lanes = vec![in alloc; 0u64; n]?;
    let mut by_places = vec![in alloc; 0u64; n]?;
    let mut by_words = vec![in alloc; 0u64; n]?;
    fill_small(small.as_mut_slice(), a.as_mut_slice());
    fill(b.as_mut_slice());
    product::product(a.as_slice(), b.as_slice(), by_lanes.as_mut_slice());
    plain::product(a.as_slice(), b.as_slice(), by_places.as_mut_slice());
    sparse::sparse(small.as_slice(), b.as_slice(), by_words.as_mut_slice());
    assert_eq!(rt; by_lanes.as_slice(), by_places.as_slice());
    assert_eq!(rt; by_words.as_slice(), by_places.as_slice());
    Ok(())
}

#[test]
fn lanes_agree_with_the_plain_loop_at_any_length(rt: HostRuntime) -> Result<(), Fail> {
    for n in 0..14 {
        bodies_agree(&rt, rt.alloc(), n)?;
    }
    Ok(())
}

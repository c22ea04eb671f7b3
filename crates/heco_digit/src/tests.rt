ghost use Rattle.std.specs.Prelude.{◌≡◌, ◌<◌, length};

use crate::{digits_into, digits_plain_into};
use heco_nums::{Memory, Preset};
use heco_poly::Poly;
use std::alloc::Global;
use std::process::Abort;
use std::test::Fail;

#[test]
fn the_digits_of_twenty_seven(rt: HostRuntime) -> Result<(), Fail> {
    let alloc = rt.alloc();
    let p = Preset::by_id(1).ok_or("no preset")?;
    let mut a = Poly::zero(alloc, &p)?;
    let mut digit = Poly::zero(alloc, &p)?;
    assert_eq!(rt; a.len(), 16);
    a.set(0, 27);
    digits_into(&a, 0, &mut digit);
    assert_eq!(rt; digit.get(0), 3);
    digits_into(&a, 1, &mut digit);
    assert_eq!(rt; digit.get(0), 2);
    digits_into(&a, 2, &mut digit);
    assert_eq!(rt; digit.get(0), 1);
    Ok(())
}

/// 58-bit coefficients that look random, after Knuth's linear congruence.
fn fill(out: &mut Poly)
    ensures { length out.new ≡ length out.old }
{
    let mut x = 1u64;
    for k in 0..out.len() {
        x = x
            .wrapping_mul(6364136223846793005)
            .wrapping_add(1442695040888963407);
        out.set(k, x >> 6);
    }
}

/// Digit i of each coefficient, by lanes and by the plain loop.
fn bodies_agree(rt: &impl Abort, alloc: Global, p: &Preset, i: u32) -> Result<(), Memory>
    requires { i < 29 }
{
    let mut a = Poly::zero(alloc, p)?;
    let mut by_lanes = Poly::zero(alloc, p)?;
    let mut by_places = Poly::zero(alloc, p)?;
    fill(&mut a);
    digits_into(&a, i, &mut by_lanes);
    digits_plain_into(&a, i, &mut by_places);
    assert_eq!(rt; by_lanes.as_slice(), by_places.as_slice());
    Ok(())
}

#[test]
fn lanes_agree_with_the_plain_loop(rt: HostRuntime) -> Result<(), Fail> {
    for id in 1..6 {
        let p = Preset::by_id(id).ok_or("no preset")?;
        for i in 0..29 {
            bodies_agree(&rt, rt.alloc(), &p, i)?;
        }
    }
    Ok(())
}

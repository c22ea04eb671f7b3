ghost use Rattle.std.specs.Prelude.{◌≡◌, IfOk, length};

use crate::constant::constant;
use heco_nums::{Memory, Preset};
use heco_poly::Poly;
use heco_wide::Tensor;
use std::alloc::Global;
use std::test::Fail;

// The constant 2^50.
fn high(alloc: Global, p: &Preset) -> Result<Poly, Memory>
    ensures { IfOk result (λ a. length a ≡ p.now.n) }
{
    let mut high = Poly::zero(alloc, p)?;
    if high.len() > 0 {
        high.set(0, 1 << 50);
    }
    Ok(high)
}

// The constants of the three parts of the square of 2^50 and 0.
fn square(alloc: Global, p: &Preset) -> Result<[Option<u64>; 3], Memory> {
    let mut tensor = Tensor::open(alloc, p)?;
    let a = high(alloc, p)?;
    let b = Poly::zero(alloc, p)?;
    let mut first = Poly::zero(alloc, p)?;
    let mut second = Poly::zero(alloc, p)?;
    let mut third = Poly::zero(alloc, p)?;
    tensor.product(&a, &b, &a, &b, &mut first, &mut second, &mut third);
    Ok([constant(&first), constant(&second), constant(&third)])
}

#[test]
fn a_square_of_constants_on_the_smallest_preset(rt: HostRuntime) -> Result<(), Fail> {
    let p8 = Preset::by_id(1).ok_or("no preset")?;
    let [first, second, third] = square(rt.alloc(), &p8)?;
    assert_eq!(rt; first, Some(1130297953353728));
    assert_eq!(rt; second, Some(0));
    assert_eq!(rt; third, Some(0));
    Ok(())
}

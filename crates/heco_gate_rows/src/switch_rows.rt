ghost use Rattle.std.specs.Prelude.{◌≡◌, IfOk, length};
ghost use Rattle.heco_scheme.specs.Ciphertexts.{IsCiphertext};

use crate::gates::{product, relinearised};
use crate::plain_switch::{drawn, drawn_key, imaged_key, relinearised_plainly};
use heco_bfv::Ct;
use heco_nums::{Memory, Preset};
use std::alloc::Global;
use std::test::Fail;

/// A product of three parts, whose words are from all of 0 to 2^58 - 1.
fn drawn_product(alloc: Global, p: &Preset) -> Result<Ct, Memory>
    ensures ciphertext { IfOk result (λ c. IsCiphertext p.now.n c) }
    ensures count { IfOk result (λ c. length c ≡ 3) }
{
    let a = Ct::of(drawn(alloc, p, 101)?, drawn(alloc, p, 102)?);
    let b = Ct::of(drawn(alloc, p, 103)?, drawn(alloc, p, 104)?);
    product(alloc, p, &a, &b)
}

fn same(a: &Ct, b: &Ct) -> bool {
    a.parts() == b.parts()
        && (0..a.parts()).all(|i| i < b.parts() && a.part(i).as_slice() == b.part(i).as_slice())
}

/// Whether the switch by a key with images, by one without, and the plain way agree.
fn all_agree(alloc: Global, id: u8) -> Result<bool, Fail> {
    let p = Preset::by_id(id).ok_or("no preset")?;
    let a = drawn_product(alloc, &p)?;
    let bare = drawn_key(alloc, &p)?;
    let plain = relinearised_plainly(alloc, &p, &bare, &a)?;
    let fast = relinearised(alloc, &p, &imaged_key(alloc, &p)?, &a)?;
    let slow = relinearised(alloc, &p, &bare, &a)?;
    Ok(same(&plain, &fast) && same(&plain, &slow))
}

#[test]
fn the_transform_and_the_plain_way_agree(rt: HostRuntime) -> Result<(), Fail> {
    for id in [1, 3, 5] {
        assert!(rt; all_agree(rt.alloc(), id)?);
    }
    Ok(())
}

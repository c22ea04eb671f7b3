ghost use Rattle.std.specs.Prelude.{IfOk};
ghost use Rattle.heco_speed.specs.Parts.{HasParts};

use crate::fill::{filled, sum};
use heco_bfv::Ct;
use heco_nums::{Memory, Preset};
use heco_poly::Poly;
use std::alloc::Global;
use std::io;

/// A ciphertext whose parts look random.
pub fn filled_ciphertext(alloc: Global, p: &Preset, seeds: (u64, u64)) -> Result<Ct, Memory>
    ensures { IfOk result (HasParts 2 p.now.n) }
{
    let first = filled(alloc, p, seeds.0)?;
    let second = filled(alloc, p, seeds.1)?;
    Ok(Ct::of(first, second))
}

/// A ciphertext whose first part is 0 and whose second part looks random: what a turn by no slot makes of it is what the
/// switch of that part gives.
pub fn second_part(alloc: Global, p: &Preset, seed: u64) -> Result<Ct, Memory>
    ensures { IfOk result (HasParts 2 p.now.n) }
{
    let first = Poly::zero(alloc, p)?;
    let second = filled(alloc, p, seed)?;
    Ok(Ct::of(first, second))
}

/// Prints the name, and each part as one number.
pub fn print_parts(rt: &HostRuntime, name: &str, c: &Ct) -> io::Result<()> {
    print!(rt; "{name}")?;
    for i in 0..c.parts() {
        print!(rt; " {:x}", sum(c.part(i).as_slice()))?;
    }
    println!(rt; "")
}

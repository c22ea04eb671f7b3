ghost use Rattle.std.specs.Prelude.{◌<◌, ◌≤◌, IfOk};
ghost use Rattle.heco_slots.specs.Tables.{Powers};

use heco_nums::Memory;
use std::alloc::Global;

/// The first n powers of x, modulo m.
pub fn powers(alloc: Global, x: u32, m: u32, n: usize) -> Result<Vec<u32>, Memory>
    requires m { 1 < m }
    requires small { m ≤ 65537 }
    requires x { x < m }
    ensures { IfOk result (λ v. Powers x m n v.items) }
{
    let mut table = Vec::with_capacity(alloc, n)?;
    let mut power = 1;
    for _ in 0..n {
        table.push(power)?;
        power = (u64::from(power) * u64::from(x) % u64::from(m)) as u32;
    }
    Ok(table)
}

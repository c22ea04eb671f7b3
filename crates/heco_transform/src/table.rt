ghost use Rattle.std.specs.Prelude.{◌≡◌, ◌<◌, ◌≤◌, ◌-◌, ◌*◌, ◌%◌, ◌^◌, IfOk, length};
ghost use Rattle.heco_transform.specs.Tables.{Layers, Doubled};

use crate::{Factor, P};
use heco_nums::Memory;
use std::alloc::Global;

/// x y modulo P.
fn modular(x: u64, y: u64) -> u64
    ensures value { result ≡ x * y % P }
    ensures below { result < P }
{
    (u128::from(x) * u128::from(y) % u128::from(P)) as u64
}

/// x to the power 2^(9 - level), modulo P.
fn level_root(x: u64, level: u32) -> u64
    requires level { level < 10 }
    requires below { x < P }
    ensures value { result ≡ x ^ 2 ^ (9 - level) % P }
    ensures below { result < P }
{
    let mut power = x;
    for _ in 0..9 - level {
        power = modular(power, power);
    }
    power
}

/// The table, and after it each entry times r.
fn double(table: &mut Vec<Factor>, r: u64) -> Result<(), Memory>
    requires { length table.old.items ≤ 512 }
    ensures { IfOk result (λ _. Doubled r table.old.items table.new.items) }
{
    for i in 0..table.len() {
        let value = modular(table[i].value(), r);
        table.push(Factor::new(value))?;
    }
    Ok(())
}

/// The first 2^depth entries of the table of powers of x.
pub fn layers(alloc: Global, x: u64, depth: u32) -> Result<Vec<Factor>, Memory>
    requires depth { depth ≤ 10 }
    requires below { x < P }
    ensures { IfOk result (λ t. Layers x depth t.items) }
{
    let mut table = Vec::with_capacity(alloc, 1024)?;
    table.push(Factor::new(1))?;
    for level in 0..depth {
        double(&mut table, level_root(x, level))?;
    }
    Ok(table)
}

ghost use Rattle.std.specs.Prelude.{◌≡◌, ◌<◌, IfOk, IfErr, Ok};
ghost use Rattle.heco_execution.specs.Outcomes.{Refuses};
ghost use Rattle.heco_execution.specs.Secrets.{numbers};
ghost use Rattle.heco_execution.specs.Plain.{plain_outputs};

use crate::whole::execute;
use crate::{EvalErr, Progress, Secrets};
use heco_nums::{Inputs, Memory, Outputs};
use heco_syntax::Source;
use std::alloc::Global;

/// The numbers modulo t.
#[derive(Clone, Copy, Debug)]
pub struct Numbers {
    pub t: u32,
    pub ghost positive: { 0 < t },
}

impl Secrets for Numbers {
    ghost use Rattle.std.specs.Prelude.{ℕ};
    ghost use Rattle.heco_execution.specs.Secrets.{numbers, storeless};

    type Value = u32;

    type Store = ();

    ghost ops = { λ m. storeless (numbers m.t) };

    fn of_number(&self, n: i64, _store: &mut ()) -> Result<u32, Memory> {
        let t = u64::from(self.t);
        let rest = n.unsigned_abs() % t;
        let residue = if n < 0 { (t - rest) % t } else { rest };
        Ok(residue as u32)
    }

    fn add(&self, x: u32, y: u32, _store: &mut ()) -> Result<u32, Memory> {
        let t = u64::from(self.t);
        let sum = (u64::from(x) + u64::from(y)) % t;
        Ok(sum as u32)
    }

    fn multiply(&self, x: u32, y: u32, _store: &mut ()) -> Result<u32, Memory> {
        let t = u64::from(self.t);
        let product = u64::from(x) * u64::from(y) % t;
        Ok(product as u32)
    }

    fn negate(&self, x: u32, _store: &mut ()) -> Result<u32, Memory> {
        Ok((self.t - x % self.t) % self.t)
    }
}

/// Executes a source on numbers modulo t: the lists of its outputs, or the first rule of execution that it breaks.
pub fn plain(
    alloc: Global,
    numbers: Numbers,
    source: &Source,
    inputs: &Inputs,
) -> Result<Outputs, EvalErr>
    ensures ok { IfOk result (λ out. plain_outputs numbers.t source.now inputs.now.rows ≡ Ok out.rows) }
    ensures err { IfErr result (λ e. Refuses e (plain_outputs numbers.t source.now inputs.now.rows)) }
{
    let mut p = Progress {
        steps: 0,
        store: (),
    };
    let rows = execute(alloc, &numbers, source, inputs.rows.as_slice(), &mut p)?;
    Ok(Outputs { rows })
}

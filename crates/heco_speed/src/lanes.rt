ghost use Rattle.std.specs.Prelude.{◌≡◌, length};

use crate::fill::{Pair, sum};
use crate::kernel::Kernel;
use heco_nums::{Memory, Preset};
use heco_poly::Poly;
use std::alloc::Global;
use std::io;

/// A product modulo q by rows, in lanes.
#[derive(Drop)]
pub struct Lanes {
    factors: Pair,
    product: Poly,
    ghost first_long: { length factors.first ≡ length product },
    ghost second_long: { length factors.second ≡ length product },
}

impl Lanes {
    pub fn open(alloc: Global, p: &Preset) -> Result<Lanes, Memory> {
        let factors = Pair::filled(alloc, p, (1, 2))?;
        let product = Poly::zero(alloc, p)?;
        Ok(Lanes { factors, product })
    }
}

impl Kernel for Lanes {
    fn run(&mut self) {
        Poly::mul_into(&self.factors.first, &self.factors.second, &mut self.product);
    }

    fn print(&self, rt: &HostRuntime, name: &str) -> io::Result<()> {
        println!(rt; "{name} {:x}", sum(self.product.as_slice()))
    }
}

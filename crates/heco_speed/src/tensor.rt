ghost use Rattle.std.specs.Prelude.{◌≡◌, IfOk};
ghost use Rattle.heco_speed.specs.Parts.{HasParts};

use crate::ciphertext::{filled_ciphertext, print_parts};
use crate::kernel::Kernel;
use heco_bfv::{Ct, Gates};
use heco_nums::{Memory, Preset};
use std::alloc::Global;
use std::io;

/// Two ciphertexts.
#[derive(Drop)]
struct Factors {
    first: Ct,
    second: Ct,
}

impl Factors {
    fn filled(alloc: Global, p: &Preset) -> Result<Factors, Memory>
        ensures first { IfOk result (λ c. HasParts 2 p.now.n c.first) }
        ensures second { IfOk result (λ c. HasParts 2 p.now.n c.second) }
    {
        let first = filled_ciphertext(alloc, p, (1, 2))?;
        let second = filled_ciphertext(alloc, p, (3, 4))?;
        Ok(Factors { first, second })
    }
}

/// The gates, with room for one product.
#[derive(Drop)]
struct Multiplier {
    gates: Gates,
    product: Ct,
    ghost three: { HasParts 3 gates.preset.n product },
}

impl Multiplier {
    fn open(alloc: Global, p: &Preset) -> Result<Multiplier, Memory>
        ensures { IfOk result (λ m. m.gates.preset ≡ p.now) }
    {
        let gates = Gates::open(alloc, p)?;
        let product = Ct::zero(alloc, p, 3)?;
        Ok(Multiplier { gates, product })
    }
}

/// A product of ciphertexts.
#[derive(Drop)]
pub struct Tensor {
    factors: Factors,
    multiplier: Multiplier,
    ghost first: { HasParts 2 multiplier.gates.preset.n factors.first },
    ghost second: { HasParts 2 multiplier.gates.preset.n factors.second },
}

impl Tensor {
    pub fn open(alloc: Global, p: &Preset) -> Result<Tensor, Memory> {
        let factors = Factors::filled(alloc, p)?;
        let multiplier = Multiplier::open(alloc, p)?;
        Ok(Tensor {
            factors,
            multiplier,
        })
    }
}

impl Kernel for Tensor {
    fn run(&mut self) {
        self.multiplier.gates.mul(
            &self.factors.first,
            &self.factors.second,
            &mut self.multiplier.product,
        );
    }

    fn print(&self, rt: &HostRuntime, name: &str) -> io::Result<()> {
        print_parts(rt, name, &self.multiplier.product)
    }
}

ghost use Rattle.std.specs.Prelude.{◌≡◌, ◌^◌, IfOk, length};
ghost use Rattle.heco_transform.specs.Images.{SumFits};
ghost use Rattle.heco_transform.specs.Limbs.{LimbsFit};

use crate::fill::{Pair, sum};
use crate::kernel::Kernel;
use heco_nums::{Memory, Preset};
use heco_poly::Poly;
use heco_transform::{ImageSum, Limbs, Transform};
use std::alloc::Global;
use std::io;

/// Room for the images of two polynomials and for their sum.
#[derive(Drop)]
struct Images {
    x: Limbs,
    y: Limbs,
    room: ImageSum,
}

impl Images {
    fn open(alloc: Global, f: &Transform) -> Result<Images, Memory>
        ensures x { IfOk result (λ i. LimbsFit f.now.depth i.x) }
        ensures y { IfOk result (λ i. LimbsFit f.now.depth i.y) }
        ensures room { IfOk result (λ i. SumFits f.now.depth i.room) }
    {
        let x = f.new_limbs(alloc)?;
        let y = f.new_limbs(alloc)?;
        let room = f.new_sum(alloc)?;
        Ok(Images { x, y, room })
    }
}

/// Room for the words of three limbs of a product; those of the low one become the product's.
#[derive(Drop)]
struct Words {
    low: Vec<u64>,
    middle: Vec<u64>,
    high: Vec<u64>,
}

impl Words {
    fn open(alloc: Global, n: usize) -> Result<Words, Memory>
        ensures low { IfOk result (λ w. length w.low.items ≡ n) }
        ensures middle { IfOk result (λ w. length w.middle.items ≡ n) }
        ensures high { IfOk result (λ w. length w.high.items ≡ n) }
    {
        let low = vec![in alloc; 0; n]?;
        let middle = vec![in alloc; 0; n]?;
        let high = vec![in alloc; 0; n]?;
        Ok(Words { low, middle, high })
    }
}

/// The transform with room for one product.
#[derive(Drop)]
struct Multiplier {
    f: Transform,
    images: Images,
    words: Words,
    ghost x_fits: { LimbsFit f.depth images.x },
    ghost y_fits: { LimbsFit f.depth images.y },
    ghost room_fits: { SumFits f.depth images.room },
    ghost low_long: { length words.low.items ≡ 2 ^ f.depth },
    ghost middle_long: { length words.middle.items ≡ 2 ^ f.depth },
    ghost high_long: { length words.high.items ≡ 2 ^ f.depth },
}

impl Multiplier {
    fn open(alloc: Global, p: &Preset) -> Result<Multiplier, Memory>
        ensures { IfOk result (λ m. 2 ^ m.f.depth ≡ p.now.n) }
    {
        let f = Transform::of_preset(alloc, p)?;
        let images = Images::open(alloc, &f)?;
        let words = Words::open(alloc, 1usize << f.depth)?;
        Ok(Multiplier { f, images, words })
    }

    fn multiply(&mut self, a: &Poly, b: &Poly)
        requires a { length a.now ≡ 2 ^ self.old.f.depth }
        requires b { length b.now ≡ 2 ^ self.old.f.depth }
        ensures { self.new.f.depth ≡ self.old.f.depth }
    {
        self.f.limbs_into(a.as_slice(), &mut self.images.x);
        self.f.limbs_into(b.as_slice(), &mut self.images.y);
        self.f.multiply(
            &self.images.x,
            &self.images.y,
            &mut self.images.room,
            self.words.middle.as_mut_slice(),
            self.words.high.as_mut_slice(),
            self.words.low.as_mut_slice(),
        );
    }
}

/// A product modulo q by the transform.
#[derive(Drop)]
pub struct Product {
    factors: Pair,
    multiplier: Multiplier,
    ghost first_long: { length factors.first ≡ 2 ^ multiplier.f.depth },
    ghost second_long: { length factors.second ≡ 2 ^ multiplier.f.depth },
}

impl Product {
    pub fn open(alloc: Global, p: &Preset) -> Result<Product, Memory> {
        let factors = Pair::filled(alloc, p, (1, 2))?;
        let multiplier = Multiplier::open(alloc, p)?;
        Ok(Product {
            factors,
            multiplier,
        })
    }
}

impl Kernel for Product {
    fn run(&mut self) {
        self.multiplier
            .multiply(&self.factors.first, &self.factors.second);
    }

    fn print(&self, rt: &HostRuntime, name: &str) -> io::Result<()> {
        println!(rt; "{name} {:x}", sum(self.multiplier.words.low.as_slice()))
    }
}

ghost use Rattle.std.specs.Prelude.{◌≡◌, ◌<◌, IfOk, length};
ghost use Rattle.heco_scheme.specs.Keys.{AreRows};

use crate::fill::{Pair, filled, sum};
use crate::kernel::Kernel;
use crate::key::bare_key;
use heco_digit::digits_into;
use heco_keys::SwitchKey;
use heco_nums::{Memory, Preset};
use heco_poly::Poly;
use std::alloc::Global;
use std::io;

/// A polynomial, and room for one digit of it and for that digit's product by a row.
#[derive(Drop)]
struct Digits {
    whole: Poly,
    digit: Poly,
    product: Poly,
    ghost digit_long: { length digit ≡ length whole },
    ghost product_long: { length product ≡ length whole },
}

impl Digits {
    fn open(alloc: Global, p: &Preset) -> Result<Digits, Memory>
        ensures { IfOk result (λ d. length d.whole ≡ p.now.n) }
    {
        let whole = filled(alloc, p, 2)?;
        let digit = Poly::zero(alloc, p)?;
        let product = Poly::zero(alloc, p)?;
        Ok(Digits {
            whole,
            digit,
            product,
        })
    }

    /// Takes digit i.
    fn take(&mut self, i: u32)
        requires { i < 29 }
        ensures { length self.new.whole ≡ length self.old.whole }
    {
        digits_into(&self.whole, i, &mut self.digit);
    }

    /// The part gains the digit times the row, by a plain product.
    fn add_product(&mut self, row: &Poly, part: &mut Poly)
        requires row { length row.now ≡ length self.old.whole }
        requires part { length part.old ≡ length self.old.whole }
        ensures whole { length self.new.whole ≡ length self.old.whole }
        ensures part { length part.new ≡ length part.old }
    {
        Poly::mul_into(&self.digit, row, &mut self.product);
        part.add_in(&self.product);
    }
}

/// The digits of a polynomial, and both parts of what they give.
#[derive(Drop)]
struct Switched {
    digits: Digits,
    parts: Pair,
    ghost first_long: { length parts.first ≡ length digits.whole },
    ghost second_long: { length parts.second ≡ length digits.whole },
}

impl Switched {
    fn open(alloc: Global, p: &Preset) -> Result<Switched, Memory>
        ensures { IfOk result (λ s. length s.digits.whole ≡ p.now.n) }
    {
        let digits = Digits::open(alloc, p)?;
        let parts = Pair::filled(alloc, p, (0, 0))?;
        Ok(Switched { digits, parts })
    }

    fn clear(&mut self)
        ensures { length self.new.digits.whole ≡ length self.old.digits.whole }
    {
        self.parts.first.scale_in(0);
        self.parts.second.scale_in(0);
    }

    /// Both parts gain digit i times row i.
    fn add_row(&mut self, key: &SwitchKey, i: u32)
        requires i { i < 29 }
        requires key { AreRows (length self.old.digits.whole) key.now.rows }
        ensures { length self.new.digits.whole ≡ length self.old.digits.whole }
    {
        let (left, right) = key.row(i);
        self.digits.take(i);
        self.digits.add_product(left, &mut self.parts.first);
        self.digits.add_product(right, &mut self.parts.second);
    }

    /// Both parts become what the key makes of the polynomial.
    fn switch(&mut self, key: &SwitchKey)
        requires { AreRows (length self.old.digits.whole) key.now.rows }
        ensures { length self.new.digits.whole ≡ length self.old.digits.whole }
    {
        self.clear();
        for i in 0..29 {
            self.add_row(key, i);
        }
    }
}

/// A key switch digit by digit, each by two plain products by rows.
#[derive(Drop)]
pub struct PlainSwitch {
    key: SwitchKey,
    switched: Switched,
    ghost rows: { AreRows (length switched.digits.whole) key.rows },
}

impl PlainSwitch {
    pub fn open(alloc: Global, p: &Preset) -> Result<PlainSwitch, Memory> {
        let key = bare_key(alloc, p)?;
        let switched = Switched::open(alloc, p)?;
        Ok(PlainSwitch { key, switched })
    }
}

impl Kernel for PlainSwitch {
    fn run(&mut self) {
        self.switched.switch(&self.key);
    }

    fn print(&self, rt: &HostRuntime, name: &str) -> io::Result<()> {
        let parts = &self.switched.parts;
        let first = sum(parts.first.as_slice());
        let second = sum(parts.second.as_slice());
        println!(rt; "{name} {first:x} {second:x}")
    }
}

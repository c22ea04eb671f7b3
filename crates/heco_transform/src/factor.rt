ghost use Rattle.std.specs.Prelude.{◌≡◌, ◌<◌};

use std::marker::Model;

/// The modulus. 2^34 divides P - 1, so that x^n + 1 has n roots modulo P. That P is prime is not used.
pub const P: u64 = (1 << 53) - (1 << 34) + 1;

/// A number below P, with the quotient that its products are reduced by: contracts see the number.
#[derive(Debug, Clone, Copy)]
pub struct Factor {
    pub(crate) value: u64,
    pub(crate) ratio: u64,
}

impl Model for Factor {
    ghost use Rattle.std.specs.Prelude.{ℕ};

    ghost Value = { ℕ };

    ghost use Rattle.heco_transform.specs.FactorNumbers.{number, inside, IsExact, inside_number};

    ghost view = { number };

    ghost invariant = { IsExact };

    ghost inverse = { inside };

    ghost inverse_ok = { inside_number };
}

impl Factor {
    /// The number with its quotient.
    pub fn new(value: u64) -> Factor
        requires { value < P }
        ensures { result ≡ value }
    {
        let wide = u128::from(value) << 64;
        let ratio = (wide / u128::from(P)) as u64;
        Factor { value, ratio }
    }

    /// The number.
    pub fn value(self) -> u64
        ensures value { result ≡ self }
        ensures below { result < P }
    {
        self.value
    }
}

ghost use Rattle.std.specs.Prelude.{◌≡◌};
ghost use Rattle.heco_syntax.specs.Ports.{length_of};

use crate::tree::Param;

impl Param {
    /// How many elements the parameter has; a scalar has one.
    pub fn length(&self) -> u64
        ensures { result ≡ length_of self.now.len }
    {
        match &self.len {
            None => 1,
            Some(len) => len.value,
        }
    }
}

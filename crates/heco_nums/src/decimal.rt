ghost use Rattle.std.specs.Prelude.{◌≡◌, ◌++◌, OnOk, decimal};

use crate::{Bytes, Memory};
use itoa::Buffer;

/// Puts the number in decimal behind the bytes.
pub fn put_number(out: &mut Bytes, n: u128) -> Result<(), Memory>
    ensures { OnOk result (out.new ≡ out.old ++ decimal n) }
{
    let mut buffer = Buffer::new();
    out.extend_from_slice(buffer.format(n).as_bytes())
}

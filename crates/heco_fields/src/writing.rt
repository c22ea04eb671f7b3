ghost use Rattle.std.specs.Prelude.{◌≡◌, ◌++◌, OnOk, OnErr, length, take};
ghost use Rattle.std.specs.Int.{w8, w16, w32, w64, to_be_bytes, cast_unsigned};
ghost use Rattle.heco_fields.specs.Formats.{header_text, versioned_text};

use crate::Header;
use heco_nums::{Bytes, Memory};

/// Puts the two low bytes of a number, the high one first.
pub fn put_u16(out: &mut Bytes, n: usize) -> Result<(), Memory>
    ensures ok { OnOk result (out.new ≡ out.old ++ to_be_bytes w16 n) }
    ensures err { OnErr result (out.new ≡ out.old) }
{
    out.extend_from_slice([(n / 256 % 256) as u8, (n % 256) as u8].as_slice())
}

/// Puts the four low bytes of a number, the high one first.
pub fn put_u32(out: &mut Bytes, n: usize) -> Result<(), Memory>
    ensures ok { OnOk result (out.new ≡ out.old ++ to_be_bytes w32 n) }
    ensures err { OnErr result (out.new ≡ out.old) }
{
    let bytes = [
        (n / (1 << 24) % 256) as u8,
        (n / (1 << 16) % 256) as u8,
        (n / 256 % 256) as u8,
        (n % 256) as u8,
    ];
    out.extend_from_slice(bytes.as_slice())
}

/// Puts the eight bytes of a number, the high one first.
pub fn put_u64(out: &mut Bytes, n: u64) -> Result<(), Memory>
    ensures ok { OnOk result (out.new ≡ out.old ++ to_be_bytes w64 n) }
    ensures err { OnErr result (out.new ≡ out.old) }
{
    out.extend_from_slice(n.to_be_bytes().as_slice())
}

/// Puts a number as one byte in two's complement.
pub fn put_i8(out: &mut Bytes, n: i8) -> Result<(), Memory>
    ensures ok { OnOk result (out.new ≡ out.old ++ to_be_bytes w8 (cast_unsigned w8 n)) }
    ensures err { OnErr result (out.new ≡ out.old) }
{
    out.push(n.cast_unsigned())
}

/// Puts the magic, the version, and the number of a preset. Where memory is wanting the old bytes stand.
pub fn put_versioned(out: &mut Bytes, magic: &[u8], header: Header) -> Result<(), Memory>
    ensures ok { OnOk result (out.new ≡ out.old ++ versioned_text magic.now header) }
    ensures err { OnErr result (take (length out.old) out.new ≡ out.old) }
{
    out.extend_from_slice(magic)?;
    out.extend_from_slice([header.version, header.preset].as_slice())
}

/// Puts the magic, version 1, and the number of a preset. Where memory is wanting the old bytes stand.
pub fn put_header(out: &mut Bytes, magic: &[u8], id: u8) -> Result<(), Memory>
    ensures ok { OnOk result (out.new ≡ out.old ++ header_text magic.now id) }
    ensures err { OnErr result (take (length out.old) out.new ≡ out.old) }
{
    let header = Header {
        version: 1,
        preset: id,
    };
    put_versioned(out, magic, header)
}

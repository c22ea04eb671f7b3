ghost use Rattle.std.specs.Prelude.{◌≡◌, ◌≤◌, ◌++◌, OnOk, codes};
ghost use Rattle.heco_nums.specs.Presets.{preset_name};
ghost use Rattle.heco_listing.specs.Listings.{number_word, port, two, preset_line};

use heco_nums::{Bytes, Memory, put_number};

/// A space and a number.
pub fn put_number_word(out: &mut Bytes, n: u32) -> Result<(), Memory>
    ensures { OnOk result (out.new ≡ out.old ++ number_word n) }
{
    out.extend_from_slice(b" ")?;
    put_number(out, u128::from(n))
}

/// Two numbers with a space between.
pub fn put_two(out: &mut Bytes, a: u32, b: u32) -> Result<(), Memory>
    ensures { OnOk result (out.new ≡ out.old ++ two a b) }
{
    put_number(out, u128::from(a))?;
    out.extend_from_slice(b" ")?;
    put_number(out, u128::from(b))
}

/// A name and a length in brackets.
pub fn put_port(out: &mut Bytes, name: &[u8], len: usize) -> Result<(), Memory>
    ensures { OnOk result (out.new ≡ out.old ++ port name.now len) }
{
    out.extend_from_slice(name)?;
    out.extend_from_slice(b"[")?;
    put_number(out, len as u128)?;
    out.extend_from_slice(b"]")
}

fn put_preset_name(out: &mut Bytes, id: u8) -> Result<(), Memory>
    requires low { 1 ≤ id }
    requires high { id ≤ 5 }
    ensures { OnOk result (out.new ≡ out.old ++ preset_name id) }
{
    match id {
        1 => out.extend_from_slice(b"p8"),
        2 => out.extend_from_slice(b"p32"),
        3 => out.extend_from_slice(b"p64"),
        4 => out.extend_from_slice(b"q32"),
        _ => out.extend_from_slice(b"q512"),
    }
}

pub fn put_preset_line(out: &mut Bytes, id: u8) -> Result<(), Memory>
    requires low { 1 ≤ id }
    requires high { id ≤ 5 }
    ensures { OnOk result (out.new ≡ out.old ++ preset_line id) }
{
    out.extend_from_slice(b"params ")?;
    put_preset_name(out, id)?;
    out.extend_from_slice(b"\n")
}

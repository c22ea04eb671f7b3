ghost use Rattle.std.specs.Prelude.{◌≡◌, ◌<◌, ◌≤◌, ◌/◌, ◌%◌, ◌^◌, EachIndex, length, slice_index};
ghost use Rattle.heco_transform.specs.Images.{bit_fields};

/// Some bits of a word.
fn bit_field(x: u64, shift: u32, bits: u32) -> u64
    requires shift { shift < 64 }
    requires bits { bits ≤ 52 }
    ensures { result ≡ x / 2 ^ shift % 2 ^ bits }
{
    (x >> shift) & ((1 << bits) - 1)
}

/// Some bits of each word.
pub fn bit_fields_into(a: &[u64], shift: u32, bits: u32, out: &mut [u64])
    requires long { length out.old ≡ length a.now }
    requires shift { shift < 64 }
    requires bits { bits ≤ 52 }
    ensures value { out.new ≡ bit_fields shift bits a.now }
    ensures below { EachIndex out.new (λ k. slice_index out.new k < 2 ^ 52) }
{
    for i in 0..out.len() {
        out[i] = bit_field(a[i], shift, bits);
    }
}

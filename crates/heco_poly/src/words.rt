ghost use Rattle.std.specs.Prelude.{◌≡◌, ◌%◌, ◌^◌, EachIndex, slice_index};

use heco_nums::Q_MASK;

/// Each word becomes 0.
pub fn clear(out: &mut [u64])
    ensures { EachIndex out.new (λ k. slice_index out.new k ≡ 0) }
{
    for x in out.iter_mut() {
        *x = 0;
    }
}

/// Each word modulo 2^58.
pub fn mask(out: &mut [u64])
    ensures { EachIndex out.new (λ k. slice_index out.new k ≡ slice_index out.old k % 2 ^ 58) }
{
    for i in 0..out.len() {
        out[i] &= Q_MASK;
    }
}

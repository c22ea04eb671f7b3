ghost use Rattle.std.specs.Prelude.{◌≡◌, ◌<◌, ◌^◌, length};
ghost use Rattle.heco_ring.specs.Remainders.{rem, reduced};
ghost use Rattle.heco_ring.specs.Ring.{wholes, times_at, times};

use crate::residue;

/// Coefficient k of the product: the sum of a_i b_j where i + j is k, less that where i + j is k + n.
fn coefficient(a: &[u64], b: &[u64], k: usize) -> u64
    requires same { length b.now ≡ length a.now }
    requires inside { k < length a.now }
    ensures { result ≡ rem (2 ^ 58) (times_at (length a.now) (wholes a.now) (wholes b.now) k) }
{
    let n = a.len();
    let mut sum = 0;
    for i in 0..n {
        if i <= k {
            sum = residue::add(sum, residue::mul(a[i], b[k - i]));
        } else {
            sum = residue::sub(sum, residue::mul(a[i], b[k + (n - i)]));
        }
    }
    sum
}

/// The product, coefficient by coefficient.
pub fn product(a: &[u64], b: &[u64], out: &mut [u64])
    requires b_len { length b.now ≡ length a.now }
    requires out_len { length out.old ≡ length a.now }
    ensures { let n = length a.now in out.new ≡ reduced (2 ^ 58) n (times n (wholes a.now) (wholes b.now)) }
{
    for k in 0..out.len() {
        out[k] = coefficient(a, b, k);
    }
}

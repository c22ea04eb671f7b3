ghost use Rattle.std.specs.Prelude.{◌≡◌, ◌++◌, IfOk, length};
ghost use Rattle.heco_sample.specs.Summary.{greatest_bound, summary};
ghost use Rattle.heco_written.specs.Bound.{greatest_of};

use heco_circuit::{Circuit, bounds};
use heco_nums::{Bytes, Memory, put_number};
use std::alloc::Global;

fn greatest_of(bounds: &[u128]) -> u128
    ensures { result ≡ greatest_of bounds.now }
{
    let mut greatest = 0;
    let mut rest = bounds;
    while let [bound, after @ ..] = rest {
        greatest = greatest.max(*bound);
        rest = after;
    }
    greatest
}

fn greatest_bound(alloc: Global, circuit: &Circuit) -> Result<u128, Memory>
    ensures { IfOk result (λ bound. bound ≡ greatest_bound circuit.now) }
{
    let bounds = bounds(alloc, circuit)?;
    Ok(greatest_of(bounds.as_slice()))
}

/// The five lines, of a seed, a circuit, and the line of the output in the clear and decrypted.
#[tactic(auto, unfolding(crate::specs::Summary::summary))]
pub fn summary(
    alloc: Global,
    seed: u64,
    circuit: &Circuit,
    plain: &[u8],
    decrypted: &[u8],
) -> Result<Bytes, Memory>
    ensures { IfOk result (λ text. text ≡ summary seed (length circuit.now.gates) (greatest_bound circuit.now) plain.now decrypted.now) }
{
    let bound = greatest_bound(alloc, circuit)?;
    let mut out = Bytes::from_slice(alloc, b"dot of 512, seed ".as_slice())?;
    put_number(&mut out, u128::from(seed))?;
    out.extend_from_slice(b"\ngates ")?;
    put_number(&mut out, circuit.gates().len() as u128)?;
    out.extend_from_slice(b"\nbound ")?;
    put_number(&mut out, bound)?;
    out.extend_from_slice(b"\nplain ")?;
    out.extend_from_slice(plain)?;
    out.extend_from_slice(b"heco ")?;
    out.extend_from_slice(decrypted)?;
    Ok(out)
}

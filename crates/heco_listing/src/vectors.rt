ghost use Rattle.std.specs.Prelude.{◌≡◌, ◌++◌, ◌<◌, ◌+◌, ◌^◌, OnOk, length};
ghost use Rattle.std.specs.List.{flat_map};
ghost use Rattle.heco_listing.specs.Listings.{number_word, vector_line, vector_lines};

use crate::pieces::put_number_word;
use heco_nums::{Bytes, List, Memory, put_number};

fn put_entries(out: &mut Bytes, vector: &[u32]) -> Result<(), Memory>
    ensures { OnOk result (out.new ≡ out.old ++ flat_map number_word vector.now) }
{
    for entry in vector {
        put_number_word(out, *entry)?;
    }
    Ok(())
}

fn put_vector(out: &mut Bytes, number: usize, vector: &[u32]) -> Result<(), Memory>
    ensures { OnOk result (out.new ≡ out.old ++ vector_line number vector.now) }
{
    out.extend_from_slice(b"vector ")?;
    put_number(out, number as u128)?;
    put_entries(out, vector)?;
    out.extend_from_slice(b"\n")
}

/// A line for each vector.
pub fn put_vectors(out: &mut Bytes, vectors: &[List<u32>]) -> Result<(), Memory>
    ensures { OnOk result (out.new ≡ out.old ++ vector_lines 0 vectors.now) }
{
    let mut number = 0;
    let mut rest = vectors;
    while let [vector, after @ ..] = rest {
        put_vector(out, number, vector.as_slice())?;
        number += 1;
        rest = after;
    }
    Ok(())
}

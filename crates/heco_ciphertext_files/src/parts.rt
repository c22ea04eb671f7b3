ghost use Rattle.std.specs.Prelude.{◌≡◌, ◌++◌, ◌∷◌, [], All, OnOk, length};
ghost use Rattle.heco_fields.specs.Readings.{Gives, reading};
ghost use Rattle.heco_nums.specs.MaterialBounds.{AreWords};
ghost use Rattle.heco_scheme.specs.Ciphertexts.{IsCiphertext};
ghost use Rattle.heco_ciphertext_files.specs.CiphertextFiles.{IsTwoParts, ciphertext, ciphertext_text};

use heco_bfv::Ct;
use heco_fields::Fault;
use heco_key_files::{poly_at, put_poly};
use heco_nums::{Bytes, Memory, Preset};
use std::alloc::Global;

/// A ciphertext of two parts.
#[tactic(auto, using(heco_fields::proofs::Steps::reading_then), unfolding(crate::specs::CiphertextFiles::ciphertext, heco_fields::specs::Readings::reading))]
pub fn ciphertext_at<'a>(
    alloc: Global,
    p: &Preset,
    bytes: &'a [u8],
) -> Result<(Ct, &'a [u8]), Fault>
    ensures { Gives (λ x. (x.0, x.1.now)) result (reading (ciphertext p.now.n 0) bytes.now) }
{
    let (first, rest) = poly_at(alloc, p, bytes)?;
    let (second, rest) = poly_at(alloc, p, rest)?;
    Ok((Ct::of(first, second), rest))
}

/// Puts the two parts.
#[tactic(auto, unfolding(crate::specs::CiphertextFiles::ciphertext_text))]
pub fn put_ciphertext(out: &mut Bytes, c: &Ct) -> Result<(), Memory>
    requires { length c.now ≡ 2 }
    ensures { OnOk result (out.new ≡ out.old ++ ciphertext_text c.now) }
{
    put_poly(out, c.part(0))?;
    put_poly(out, c.part(1))
}

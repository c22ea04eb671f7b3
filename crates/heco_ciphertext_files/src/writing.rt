ghost use Rattle.std.specs.Prelude.{◌≡◌, ◌++◌, ◌<◌, ◌^◌, ℕ, List as Seq, All, OnOk, IfOk, length};
ghost use Rattle.std.specs.Int.{w32, to_be_bytes};
ghost use Rattle.heco_ciphertext_files.specs.CiphertextFiles.{AreCiphertexts, ciphertexts, ciphertexts_text, file_text, magic_of};
ghost use Rattle.heco_ciphertext_files.specs.Counted.{counted_as};

use crate::kind::FileKind;
use crate::parts::put_ciphertext;
use heco_bfv::Ct;
use heco_fields::{put_header, put_u32};
use heco_nums::{Bytes, Memory, Preset};
use std::alloc::Global;

#[tactic(auto, unfolding(crate::specs::CiphertextFiles::ciphertexts_text))]
fn put_ciphertexts(out: &mut Bytes, cs: &[Ct]) -> Result<(), Memory>
    requires { All (λ c. length c ≡ 2) cs.now }
    ensures { OnOk result (out.new ≡ out.old ++ ciphertexts_text cs.now) }
{
    for c in cs {
        put_ciphertext(out, c)?;
    }
    Ok(())
}

#[tactic(auto, unfolding(crate::specs::CiphertextFiles::file_text))]
fn text(alloc: Global, k: FileKind, p: &Preset, cs: &[Ct]) -> Result<Bytes, Memory>
    requires two { All (λ c. length c ≡ 2) cs.now }
    ensures { IfOk result (λ bytes. bytes ≡ file_text (magic_of k) p.now.id cs.now) }
{
    let mut out = Bytes::new(alloc);
    put_header(&mut out, k.magic(), p.id)?;
    put_u32(&mut out, cs.len())?;
    put_ciphertexts(&mut out, cs)?;
    Ok(out)
}

/// The file of these ciphertexts of two parts. Where they are of the preset and fewer than 2^32, the reader reads
/// them back from there, and no other ciphertexts have this file.
pub fn write_cts(alloc: Global, k: FileKind, p: &Preset, c: &[Ct]) -> Result<Bytes, Memory>
    requires two { All (λ x. length x ≡ 2) c.now }
    ensures text { IfOk result (λ bytes. bytes ≡ file_text (magic_of k) p.now.id c.now) }
    ensures back { let n = length c.now in n < 2 ^ 32 → AreCiphertexts p.now.n n c.now → IfOk result (λ bytes. counted_as (magic_of k) p.now.id n (ciphertexts p.now.n n) bytes ≡ Ok c.now) }
    ensures own { let n = length c.now in (other : Seq (Seq (Seq ℕ))) → n < 2 ^ 32 → length other < 2 ^ 32 → AreCiphertexts p.now.n n c.now → AreCiphertexts p.now.n (length other) other
        → IfOk result (λ bytes. bytes ≡ file_text (magic_of k) p.now.id other → c.now ≡ other) }
{
    text(alloc, k, p, c)
}

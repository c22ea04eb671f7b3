ghost use Rattle.std.specs.Prelude.{◌≡◌, ◌-◌, length};
ghost use Rattle.heco_key_files.specs.Judging.{Answers, header_as};

use heco_fields::{Fault, header_at};
use heco_lists::FileErr;
use heco_nums::Preset;

/// The refusal of a field that begins with so many bytes left.
pub fn broken_at(bytes: &[u8], left: u64) -> FileErr
    ensures { result ≡ FileErr.Malformed (length bytes.now - left) }
{
    FileErr::Malformed {
        at: (bytes.len() as u64).saturating_sub(left),
    }
}

/// The bytes behind a header with this magic and this preset.
#[tactic(auto, unfolding(crate::specs::Judging::wanted))]
pub fn behind_header<'a>(p: &Preset, magic: &[u8], bytes: &'a [u8]) -> Result<&'a [u8], FileErr>
    ensures { Answers (λ rest. rest.now) result (header_as magic.now p.now.id bytes.now) }
{
    match header_at(bytes, magic) {
        Ok((found, rest)) => {
            if found != p.id {
                return Err(FileErr::WrongPreset { kept: p.id, found });
            }
            Ok(rest)
        }
        Err(Fault::Broken { left }) => Err(broken_at(bytes, left)),
        Err(Fault::Memory) => Err(FileErr::Memory),
    }
}

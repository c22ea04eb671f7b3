ghost use Rattle.std.specs.Prelude.{◌≡◌, ◌≢◌, ◌≤◌, length, min, OnOk, IfErr};
ghost use Rattle.heco_material.specs.declared.error.MatErr.TheVariants.{Length};
ghost use Rattle.heco_nums.specs.Needs.{IsRising};
ghost use Rattle.heco_material.specs.KeyLists.{key_count};

use crate::error::MatErr;
use heco_nums::KeyNeeds;

/// How many switch keys are needed.
pub fn key_count(needs: &KeyNeeds) -> usize
    ensures count { result ≡ key_count needs.now }
    ensures few { result ≤ 65537 }
{
    let turns = turn_count(needs);
    if needs.relin { 1 + turns } else { turns }
}

fn turn_count(needs: &KeyNeeds) -> usize
    ensures count { result ≡ length needs.now.turns }
    ensures few { result ≤ 65536 }
{
    rising_len(needs.turns.as_slice())
}

// Turns that rise are different numbers of two bytes.
fn rising_len(turns: &[u16]) -> usize
    requires { IsRising turns.now }
    ensures count { result ≡ length turns.now }
    ensures few { result ≤ 65536 }
{
    turns.len()
}

/// Refuses a length that is not the stated one. The stated length is a u128, so that no count overflows it.
pub fn judge_length(bytes: &[u8], stated: u128) -> Result<(), MatErr>
    ensures ok { OnOk result (length bytes.now ≡ stated) }
    ensures err { IfErr result (λ e. (length bytes.now ≢ stated) × (e ≡ Length (min (length bytes.now) stated))) }
{
    let length = bytes.len() as u128;
    if length != stated {
        return Err(MatErr::Length {
            at: length.min(stated) as u64,
        });
    }
    Ok(())
}

ghost use Rattle.std.specs.Prelude.{◌<◌, IfOk};

use std::test::Fail;

/// A number below the modulus of ciphertexts.
pub fn word(text: Option<&str>) -> Result<u64, Fail>
    ensures { IfOk result (λ x. x < 288230376151711744) }
{
    let x = text.ok_or("no number")?.parse::<u64>()?;
    if x >= 288_230_376_151_711_744 {
        return Err("2^58 or more".into());
    }
    Ok(x)
}

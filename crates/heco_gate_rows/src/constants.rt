ghost use Rattle.std.specs.Prelude.{◌≡◌, ◌<◌, All, IfOk, length};
ghost use Rattle.heco_scheme.specs.Ciphertexts.{IsCiphertext};

use crate::gates::{constant, constants, difference, multiple, product, weighed};
use crate::parse::word;
use heco_bfv::Ct;
use heco_nums::{Memory, Preset};
use std::alloc::Global;
use std::test::Fail;

// What is done with a ciphertext of two constants, these, and the constants of the result's parts.
const ROWS: &str = "square|1125899906842624 0|1130297953353728 0 0
square|7 1125899906842624|0 14 1130297953353728
times 200|1125899906842624 3|224054081461682176 288230376151711573
times 200 in each slot|1125899906842624 3|224054081461682176 288230376151711573
square times 200 in each slot|7 1125899906842624|0 288230376151710946 223803392810549248
less its square|7 1125899906842624|7 1125899906842610 287100078198358016";

fn less_square(alloc: Global, p: &Preset, a: &Ct) -> Result<Ct, Memory>
    requires ciphertext { IsCiphertext p.now.n a.now }
    requires two { length a.now ≡ 2 }
{
    let square = product(alloc, p, a, a)?;
    difference(alloc, p, a, &square)
}

fn square_weighed(alloc: Global, p: &Preset, v: &[u32], a: &Ct) -> Result<Ct, Memory>
    requires v { length v.now ≡ p.now.slots }
    requires below { All (λ x. x < p.now.t) v.now }
    requires ciphertext { IsCiphertext p.now.n a.now }
    requires two { length a.now ≡ 2 }
{
    let square = product(alloc, p, a, a)?;
    weighed(alloc, p, v, &square)
}

fn result(alloc: Global, p: &Preset, operation: &str, a: &Ct) -> Result<Ct, Memory>
    requires slots { p.now.slots ≡ 8 }
    requires modulus { 200 < p.now.t }
    requires ciphertext { IsCiphertext p.now.n a.now }
    requires two { length a.now ≡ 2 }
{
    match operation {
        "square" => product(alloc, p, a, a),
        "times 200" => multiple(alloc, p, 200, a),
        "times 200 in each slot" => weighed(alloc, p, [200; 8].as_slice(), a),
        "square times 200 in each slot" => square_weighed(alloc, p, [200; 8].as_slice(), a),
        _ => less_square(alloc, p, a),
    }
}

fn are_parts(c: &Ct, text: &str) -> Result<bool, Fail> {
    let mut words = text.split(' ');
    for i in 0..c.parts() {
        if constant(c, i) != Some(word(words.next())?) {
            return Ok(false);
        }
    }
    Ok(words.next().is_none())
}

fn operand(alloc: Global, p: &Preset, text: &str) -> Result<Ct, Fail>
    ensures ciphertext { IfOk result (λ c. IsCiphertext p.now.n c) }
    ensures count { IfOk result (λ c. length c ≡ 2) }
{
    let mut words = text.split(' ');
    let first = word(words.next())?;
    let second = word(words.next())?;
    Ok(constants(alloc, p, first, second)?)
}

fn gives(alloc: Global, p: &Preset, operation: &str, a: &Ct, want: &str) -> Result<bool, Fail>
    requires slots { p.now.slots ≡ 8 }
    requires modulus { 200 < p.now.t }
    requires ciphertext { IsCiphertext p.now.n a.now }
    requires two { length a.now ≡ 2 }
{
    let c = result(alloc, p, operation, a)?;
    are_parts(&c, want)
}

fn holds(alloc: Global, p: &Preset, row: &str) -> Result<bool, Fail>
    requires slots { p.now.slots ≡ 8 }
    requires modulus { 200 < p.now.t }
{
    let mut fields = row.split('|');
    let operation = fields.next().ok_or("no operation")?;
    let text = fields.next().ok_or("no operand")?;
    let want = fields.next().ok_or("no result")?;
    let a = operand(alloc, p, text)?;
    gives(alloc, p, operation, &a, want)
}

#[test]
fn each_gate_on_constants_gives_these(rt: HostRuntime) -> Result<(), Fail> {
    let p8 = Preset::by_id(1).ok_or("no preset")?;
    assert_eq!(rt; p8.t, 257);
    assert_eq!(rt; p8.slots, 8);
    for row in ROWS.lines() {
        assert!(rt; holds(rt.alloc(), &p8, row)?, "{row}");
    }
    Ok(())
}

use crate::given::{Given, given_by, run_on};
use heco_bfv::Ct;
use heco_run::Ran;
use heco_sched::{First, Picker};
use std::alloc::Global;
use std::test::Fail;

// Of each result of the circuit `weighed`, the words of its two parts, a line for each, as they were worked out in another
// language from the definition of a plain vector's polynomial.
const WORDS: &str =
    "288230359508714216 2415918996 288230362327286378 288230369306607922 288230374138445914 288230371454091474 288230363937899042 12884901312 0 288230363266810432 12213812702 4697620270 2013265830 6845103822 13824425366 288230373735792748
288230359508714712 2415918924 288230362327286790 288230369306608126 288230374138445974 288230371454091614 288230363937899406 12884900928 0 288230363266810816 12213812338 4697620130 2013265770 6845103618 13824424954 288230373735792820
288202334378598589 288224226765451731 288226634295840106 288207981320816295 288224068052995466 288229913436115149 288218886242293351 288229196377935364 0 1179773776380 11489909418393 462715596595 6308098716278 22394830895449 3741855871638 6149386260013
288202334379434299 288224226765634997 288226634295951622 288207981321483713 288224068053183462 288229913436128939 288218886242635777 288229196377970524 0 1179773741220 11489909075967 462715582805 6308098528282 22394830228031 3741855760122 6149386076747";

// Whether the words are those of the line.
fn are_words(words: &[u64], line: &str) -> Result<bool, Fail> {
    let mut rest = words.iter();
    for word in line.split(' ') {
        if rest.next() != Some(&word.parse::<u64>()?) {
            return Ok(false);
        }
    }
    Ok(rest.next().is_none())
}

fn has_parts(c: &Ct, first: &str, second: &str) -> Result<bool, Fail> {
    Ok(
        c.parts() == 2
            && are_words(c.part(0).as_slice(), first)?
            && are_words(c.part(1).as_slice(), second)?,
    )
}

// Whether these are the ciphertexts of the text, two lines for each.
fn are_results(outs: &[Ct], text: &str) -> Result<bool, Fail> {
    let mut lines = text.lines();
    for out in outs {
        let first = lines.next().ok_or("no first part")?;
        let second = lines.next().ok_or("no second part")?;
        if !has_parts(out, first, second)? {
            return Ok(false);
        }
    }
    Ok(lines.next().is_none())
}

fn led(alloc: Global, g: &Given) -> Result<Ran, Fail> {
    let mut picker: Box<dyn Picker> = Box::new(alloc, First)?;
    Ok(run_on(alloc, g, 2, &mut picker)?)
}

fn holds(alloc: Global) -> Result<bool, Fail> {
    let g = given_by(alloc, "weighed", "weighed")?;
    are_results(led(alloc, &g)?.outs.as_slice(), WORDS)
}

#[test]
fn each_vector_weighs_by_its_own_polynomial(rt: HostRuntime) -> Result<(), Fail> {
    assert!(rt; holds(rt.alloc())?);
    Ok(())
}

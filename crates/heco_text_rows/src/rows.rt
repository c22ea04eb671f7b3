use crate::answer::{answer, is_text, text_of};
use heco_nums::Preset;
use std::alloc::Global;
use std::test::Fail;

// Texts of one x and two y below 257, with $ for LF, ^ for CR and ~ for a tab, and what reading answers: the values as
// they are printed, or the refusal.
const ROWS: &str = "x = 1$y = 2 3 => x = 1$y = 2 3$
x = 1$y = 2 3$ => x = 1$y = 2 3$
x = 1^$y = 2 3^$ => x = 1$y = 2 3$
x=1$y=2 3$ => x = 1$y = 2 3$
~ x ~=~ 007 $ ~ $# x ^ = in$  ~# any$y =2    3   => x = 7$y = 2 3$
$^$$y = 0 256$$x = 256 => x = 256$y = 0 256$
 => InputMissing 0
$ $# => InputMissing 0
x = 1 => InputMissing 1
y = 2 3 => InputMissing 0
x = 257$y = 1 2 => InputValue 1
y = 1 2$x = 257 => InputValue 2
x = 1$y = 1 4294967553 => InputValue 2
x = 1$y = 1 2$x = 1 => InputName 3
x = 1$x = 1 2 => InputName 2
z = 1 => InputName 1
z = 257 257 => InputName 1
x = 257 257 => InputCount 1
x = 1 2 => InputCount 1
x = => InputCount 1
y=1 => InputCount 1
x 1 => InputText 1
x => InputText 1
in = 1 => InputText 1
x = 1$y = 1 2$else = 1 => InputText 3
x = -1 => InputText 1
x = +1 => InputText 1
x = 1 # c => InputText 1
x = 1^ => InputText 1
x = 1^^$ => InputText 1
x = 1^y = 1 2 => InputText 1
x^ = 1 => InputText 1
x = 1x => InputText 1
y = 1,2 => InputText 1
x == 1 => InputText 1
x = 1 = 1 => InputText 1
1x = 1 => InputText 1
= 1 => InputText 1
x y = 1 => InputText 1
y = 1 2$bad => InputText 2
x = 257$bad => InputValue 1
bad$x = 257 => InputText 1";

// Whether reading the text answers what the row says.
fn is_answered(alloc: Global, p: &Preset, text: &str, want: &str) -> Result<bool, Fail> {
    let text = text_of(alloc, text)?;
    let found = answer(alloc, p, text.as_slice())?;
    Ok(is_text(found.as_slice(), want))
}

#[test]
fn each_text_has_its_values_or_its_refusal(rt: HostRuntime) -> Result<(), Fail> {
    let p8 = Preset::by_id(1).ok_or("no preset")?;
    for row in ROWS.lines() {
        let (text, want) = row.split_once(" => ").ok_or("no answer")?;
        assert!(rt; is_answered(rt.alloc(), &p8, text, want)?, "{row}");
    }
    Ok(())
}

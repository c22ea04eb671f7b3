ghost use Rattle.std.specs.Prelude.{◌≡◌, ◌++◌, IfOk, IfSome, IfNone, None, is_some, nat_lt, false};
ghost use Rattle.std.specs.List.{list_all};
ghost use Rattle.heco_texts.specs.Kinds.{LineKind, Formless, assigned, kind_of, kind_of_bare, says_nothing};
ghost use Rattle.heco_texts.specs.Numbers.{numbers_of};
ghost use Rattle.heco_texts.specs.Rules.{given_of, len_named, row_named, rule_of, rule_of_name, rule_of_values};

use crate::bytes::{cut_name, without_blanks};
use crate::error::InputRule;
use crate::given::{Given, give, row_named};
use crate::number::capped_values;
use heco_nums::{List, Memory, Shape, is_word};
use std::alloc::Global;

fn says_nothing(bare: &[u8]) -> bool
    ensures { result ≡ says_nothing bare.now }
{
    match bare {
        [] => true,
        [c, ..] => *c == b'#',
    }
}

// The name of a line without blanks at its front, and the bytes behind its `=`.
fn assignment(bare: &[u8]) -> Option<(&[u8], &[u8])>
    requires { says_nothing bare.now ≡ false }
    ensures found { IfSome result (λ p. kind_of_bare bare.now ≡ assigned p.0.now (numbers_of p.1.now)) }
    ensures none { IfNone result (kind_of_bare bare.now ≡ Formless) }
{
    let (name, back) = cut_name(bare);
    match without_blanks(back) {
        [c, behind @ ..] if *c == b'=' && is_word(name) => Some((name, behind)),
        _ => None,
    }
}

// How many elements the shape of that name has.
fn len_named(shapes: &[Shape], name: &[u8]) -> Option<u32>
    ensures { result ≡ len_named name.now shapes.now }
{
    for shape in shapes {
        if shape.name.as_slice() == name {
            return Some(shape.len);
        }
    }
    None
}

fn are_below(values: &[u32], t: u32) -> bool
    ensures { result ≡ list_all (λ v. nat_lt v t) values.now }
{
    values.iter().all(|v| *v < t)
}

fn rule_of_values(t: u32, earlier: bool, len: u32, values: &[u32]) -> Option<InputRule>
    ensures { result ≡ rule_of_values t earlier len values.now }
{
    if earlier {
        return Some(InputRule::InputName);
    }
    if values.len() != len as usize {
        return Some(InputRule::InputCount);
    }
    if are_below(values, t) {
        None
    } else {
        Some(InputRule::InputValue)
    }
}

fn rule_of_name(
    t: u32,
    shapes: &[Shape],
    given: &[Given],
    name: &[u8],
    values: &[u32],
) -> Option<InputRule>
    ensures { result ≡ rule_of_name t (is_some (row_named name.now given.now)) (len_named name.now shapes.now) values.now }
{
    match len_named(shapes, name) {
        None => Some(InputRule::InputName),
        Some(len) => rule_of_values(t, row_named(given, name).is_some(), len, values),
    }
}

/// The first rule that the line breaks behind lines that gave these; where it breaks none, what it gives is put behind
/// them.
#[tactic(auto, unfolding(crate::specs::Kinds::kind_of))]
pub fn take_line(
    alloc: Global,
    t: u32,
    shapes: &[Shape],
    given: &mut List<Given>,
    line: &[u8],
) -> Result<Option<InputRule>, Memory>
    ensures rule { IfOk result (λ rule. rule ≡ rule_of t shapes.now given.old (kind_of line.now)) }
    ensures given { IfOk result (λ rule. rule ≡ None → given.new ≡ given.old ++ given_of (kind_of line.now)) }
{
    let bare = without_blanks(line);
    if says_nothing(bare) {
        return Ok(None);
    }
    let Some((name, behind)) = assignment(bare) else {
        return Ok(Some(InputRule::InputText));
    };
    let Some(values) = capped_values(alloc, behind)? else {
        return Ok(Some(InputRule::InputText));
    };
    if let Some(rule) = rule_of_name(t, shapes, given.as_slice(), name, values.as_slice()) {
        return Ok(Some(rule));
    }
    give(alloc, given, name, values)?;
    Ok(None)
}

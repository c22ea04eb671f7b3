ghost use Rattle.std.specs.Prelude.{◌≡◌, None, OnOk, IfErr};
ghost use Rattle.heco_types.specs.Names.{is_secret, is_assignable, is_definition};
ghost use Rattle.heco_types.specs.Sites.{Finds, refusal};
ghost use Rattle.heco_types.specs.Table.{earliest, parameter, declares, targets, uses, calls, counts};

use crate::context::Context;
use crate::name::{Entity, Sort};
use crate::refusal::TypeErr;
use heco_lex::{Place, Rule};

/// The rule that is broken is the refusal.
pub fn judge(rule: Option<Rule>, at: Place) -> Result<(), TypeErr>
    ensures ok { OnOk result (refusal at rule ≡ None) }
    ensures err { IfErr result (λ e. Finds e (refusal at rule)) }
{
    match rule {
        None => Ok(()),
        Some(rule) => Err(TypeErr::At { rule, at }),
    }
}

pub fn is_secret(sort: Sort) -> bool
    ensures { result ≡ is_secret sort }
{
    match sort {
        Sort::Input | Sort::Output | Sort::Secret => true,
        Sort::Int | Sort::Counter | Sort::Argument | Sort::Definition { .. } => false,
    }
}

fn is_assignable(sort: Sort) -> bool
    ensures { result ≡ is_assignable sort }
{
    match sort {
        Sort::Output | Sort::Secret | Sort::Int => true,
        Sort::Input | Sort::Counter | Sort::Argument | Sort::Definition { .. } => false,
    }
}

fn is_definition(sort: Sort) -> bool
    ensures { result ≡ is_definition sort }
{
    match sort {
        Sort::Definition { .. } => true,
        _ => false,
    }
}

/// What the parameter with this number, from 0, breaks at its name.
pub fn rule_of_parameter(number: usize, found: Option<Entity>) -> Option<Rule>
    ensures { result ≡ earliest (parameter number) found }
{
    if found.is_some() {
        return Some(Rule::Redeclared);
    }
    if number >= 256 {
        return Some(Rule::Length);
    }
    None
}

/// What a declared name breaks.
pub fn rule_of_declared(found: Option<Entity>) -> Option<Rule>
    ensures { result ≡ earliest declares found }
{
    match found {
        None => None,
        Some(_) => Some(Rule::Redeclared),
    }
}

/// What the target of an assignment breaks.
pub fn rule_of_target(indexed: bool, found: Option<Entity>) -> Option<Rule>
    ensures { result ≡ earliest (targets indexed) found }
{
    let Some(entity) = found else {
        return Some(Rule::UnknownName);
    };
    if !is_assignable(entity.sort) {
        return Some(Rule::NotAssignable);
    }
    if is_definition(entity.sort) || entity.array != indexed {
        return Some(Rule::Kind);
    }
    None
}

// What a secret name breaks.
fn rule_of_secret(context: Context) -> Option<Rule>
    ensures anywhere { context ≡ Context.Anywhere → result ≡ None }
    ensures index { context ≡ Context.Index → result ≡ Some Rule.SecretIndex }
    ensures bound { context ≡ Context.Bound → result ≡ Some Rule.SecretBound }
    ensures value { context ≡ Context.IntValue → result ≡ Some Rule.SecretToPublic }
{
    match context {
        Context::Anywhere => None,
        Context::Index => Some(Rule::SecretIndex),
        Context::Bound => Some(Rule::SecretBound),
        Context::IntValue => Some(Rule::SecretToPublic),
    }
}

/// What a name in an expression breaks.
pub fn rule_of_use(context: Context, indexed: bool, found: Option<Entity>) -> Option<Rule>
    ensures { result ≡ earliest (uses context indexed) found }
{
    let Some(entity) = found else {
        return Some(Rule::UnknownName);
    };
    if is_definition(entity.sort) || entity.array != indexed {
        return Some(Rule::Kind);
    }
    if is_secret(entity.sort) {
        return rule_of_secret(context);
    }
    None
}

/// What a call of a name with so many arguments breaks, where `inside` says whether it stands in a definition.
pub fn rule_of_call(
    context: Context,
    count: usize,
    inside: bool,
    found: Option<Entity>,
) -> Option<Rule>
    ensures { result ≡ earliest (calls context count inside) found }
{
    let Some(entity) = found else {
        return Some(Rule::UnknownName);
    };
    match entity.sort {
        Sort::Definition { params, depth } => {
            if count != params {
                return Some(Rule::Length);
            }
            if inside && depth >= 8 {
                return Some(Rule::TooNested);
            }
            None
        }
        _ => Some(Rule::Kind),
    }
}

/// What a length breaks, where `equal` says whether as many values are given.
pub fn rule_of_length(value: u64, limit: u64, equal: bool) -> Option<Rule>
    ensures { result ≡ earliest (counts value limit equal) None }
{
    if value == 0 || value > limit || !equal {
        return Some(Rule::Length);
    }
    None
}

ghost use Rattle.std.specs.Prelude.{◌≡◌, ◌++◌, ◌∷◌, [], ℕ, ◌≤◌, None, OnOk, IfOk, IfErr, map};
ghost use Rattle.heco_nums.specs.Presets.{preset_name};
ghost use Rattle.heco_types.specs.Names.{visible};
ghost use Rattle.heco_types.specs.Parameters.{of_length, of_param, of_params, of_function, of_source, param_limit, param_name, sort_of};
ghost use Rattle.heco_types.specs.Sites.{Finds, first, refusal_at, site};
ghost use Rattle.heco_types.specs.Presets.{names_preset, slots_named};
ghost use Rattle.heco_types.specs.Table.{parameter, preset_word};

use crate::definitions::check_definitions;
use crate::name::{Entity, Sort};
use crate::refusal::TypeErr;
use crate::rules::{judge, rule_of_parameter};
use crate::scope::Scope;
use crate::statements::{MOST, check_all, check_length};
use heco_lex::Rule;
use heco_nums::Preset;
use heco_syntax::{Ident, Num, Param, Source};
use std::alloc::Global;

/// Judges the name of the parameter with this number, from 0.
pub fn check_name(scope: &Scope, number: usize, name: &Ident) -> Result<(), TypeErr>
    ensures ok { OnOk result (refusal_at (site name.now.at name.now.text (parameter number) scope.now) ≡ None) }
    ensures absent { OnOk result (visible scope.now name.now.text ≡ None) }
    ensures err { IfErr result (λ e. Finds e (refusal_at (site name.now.at name.now.text (parameter number) scope.now))) }
{
    let found = scope.find(name.text.as_slice());
    judge(rule_of_parameter(number, found), name.at)
}

fn check_given(scope: &Scope, limit: u64, len: Option<Num>) -> Result<(), TypeErr>
    ensures ok { OnOk result (of_length first len limit scope.now ≡ None) }
    ensures err { IfErr result (λ e. Finds e (of_length first len limit scope.now)) }
{
    match len {
        None => Ok(()),
        Some(len) => check_length(scope, len, limit, true),
    }
}

fn limit(slots: u32, output: bool) -> u64
    ensures { result ≡ param_limit slots output }
{
    if output { MOST } else { u64::from(slots) }
}

fn sort(output: bool) -> Sort
    ensures { result ≡ sort_of output }
{
    if output { Sort::Output } else { Sort::Input }
}

// Judges the parameter with this number, from 0, and makes it visible.
fn check_param(
    alloc: Global,
    scope: &mut Scope,
    slots: u32,
    number: usize,
    p: &Param,
) -> Result<(), TypeErr>
    ensures ok { OnOk result (of_param first slots number p.now scope.old ≡ None) }
    ensures adds { OnOk result (scope.new ≡ scope.old ++ param_name p.now ∷ []) }
    ensures err { IfErr result (λ e. Finds e (of_param first slots number p.now scope.old)) }
{
    check_name(scope, number, &p.name)?;
    check_given(scope, limit(slots, p.output), p.len)?;
    let entity = Entity {
        sort: sort(p.output),
        array: p.len.is_some(),
    };
    scope.declare(alloc, p.name.text.as_slice(), entity)?;
    Ok(())
}

fn check_params(
    alloc: Global,
    scope: &mut Scope,
    slots: u32,
    ports: &[Param],
) -> Result<(), TypeErr>
    ensures ok { OnOk result (of_params first slots 0 ports.now scope.old ≡ None) }
    ensures adds { OnOk result (scope.new ≡ scope.old ++ map param_name ports.now) }
    ensures err { IfErr result (λ e. Finds e (of_params first slots 0 ports.now scope.old)) }
{
    for (number, p) in ports.iter().enumerate() {
        check_param(alloc, scope, slots, number, p)?;
    }
    Ok(())
}

// The preset that the word names.
fn check_preset(word: &Ident) -> Result<Preset, TypeErr>
    ensures ok { OnOk result (refusal_at (site word.now.at word.now.text (preset_word (names_preset word.now.text)) []) ≡ None) }
    ensures name { IfOk result (λ p. preset_name p.id ≡ word.now.text) }
    ensures slots { IfOk result (λ p. p.slots ≡ slots_named word.now.text) }
    ensures err { IfErr result (λ e. Finds e (refusal_at (site word.now.at word.now.text (preset_word (names_preset word.now.text)) []))) }
{
    match Preset::by_name(word.text.as_slice()) {
        Some(preset) => Ok(preset),
        None => Err(TypeErr::At {
            rule: Rule::UnknownParams,
            at: word.at,
        }),
    }
}

// Judges the function behind the definitions.
fn check_function(alloc: Global, scope: &mut Scope, slots: u32, x: &Source) -> Result<(), TypeErr>
    requires { slots ≡ slots_named x.now.params.text }
    ensures ok { OnOk result (of_function first x.now scope.old ≡ None) }
    ensures err { IfErr result (λ e. Finds e (of_function first x.now scope.old)) }
{
    check_params(alloc, scope, slots, x.ports.as_slice())?;
    check_all(alloc, scope, x.body.as_slice())
}

/// Judges a source, and gives its preset.
pub fn check_source(alloc: Global, x: &Source) -> Result<Preset, TypeErr>
    ensures ok { OnOk result (of_source first x.now ≡ None) }
    ensures preset { IfOk result (λ p. preset_name p.id ≡ x.now.params.text) }
    ensures slots { IfOk result (λ p. p.slots ≡ slots_named x.now.params.text) }
    ensures err { IfErr result (λ e. Finds e (of_source first x.now)) }
{
    let preset = check_preset(&x.params)?;
    let mut scope = Scope::new(alloc);
    check_definitions(alloc, &mut scope, x.defs.as_slice())?;
    check_function(alloc, &mut scope, preset.slots, x)?;
    Ok(preset)
}

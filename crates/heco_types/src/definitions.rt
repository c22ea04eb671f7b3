ghost use Rattle.std.specs.Prelude.{◌≡◌, ◌++◌, ◌∷◌, [], None, OnOk, IfOk, IfErr, length, map, suc, true};
ghost use Rattle.heco_types.specs.Definitions.{argument_name, called_depth, definition_name, definition_names, of_argument, of_arguments, of_definition, of_definitions, of_value};
ghost use Rattle.heco_types.specs.Sites.{Finds, first};

use crate::context::Context;
use crate::depths::depth_called;
use crate::expressions::check_expr;
use crate::name::{Entity, Sort};
use crate::parameters::check_name;
use crate::refusal::TypeErr;
use crate::scope::Scope;
use crate::statements::{check_declared, declare};
use heco_syntax::{Def, Ident};
use std::alloc::Global;

// Judges the parameter with this number, from 0, and makes it visible.
fn check_argument(alloc: Global, scope: &mut Scope, number: usize, x: &Ident) -> Result<(), TypeErr>
    ensures ok { OnOk result (of_argument first number x.now scope.old ≡ None) }
    ensures adds { OnOk result (scope.new ≡ scope.old ++ argument_name x.now ∷ []) }
    ensures err { IfErr result (λ e. Finds e (of_argument first number x.now scope.old)) }
{
    check_name(scope, number, x)?;
    let entity = Entity {
        sort: Sort::Argument,
        array: false,
    };
    scope.declare(alloc, x.text.as_slice(), entity)?;
    Ok(())
}

fn check_arguments(alloc: Global, scope: &mut Scope, params: &[Ident]) -> Result<(), TypeErr>
    ensures ok { OnOk result (of_arguments first 0 params.now scope.old ≡ None) }
    ensures adds { OnOk result (scope.new ≡ scope.old ++ map argument_name params.now) }
    ensures err { IfErr result (λ e. Finds e (of_arguments first 0 params.now scope.old)) }
{
    for (number, x) in params.iter().enumerate() {
        check_argument(alloc, scope, number, x)?;
    }
    Ok(())
}

// Judges the parameters and the value, and gives how deep the definition goes.
#[tactic(auto, using(crate::proofs::Shallow::not_too_deep))]
fn check_value(alloc: Global, scope: &mut Scope, d: &Def) -> Result<u32, TypeErr>
    ensures ok { OnOk result (of_value first d.now scope.old ≡ None) }
    ensures depth { IfOk result (λ n. n ≡ suc (called_depth scope.old d.now)) }
    ensures same { OnOk result (scope.new ≡ scope.old) }
    ensures err { IfErr result (λ e. Finds e (of_value first d.now scope.old)) }
{
    let count = scope.len();
    check_arguments(alloc, scope, d.params.as_slice())?;
    check_expr(scope, true, Context::Anywhere, &d.value)?;
    let depth = depth_called(scope, Context::Anywhere, &d.value);
    scope.truncate(count);
    Ok(depth + 1)
}

fn check_definition(alloc: Global, scope: &mut Scope, d: &Def) -> Result<(), TypeErr>
    ensures ok { OnOk result (of_definition first d.now scope.old ≡ None) }
    ensures adds { OnOk result (scope.new ≡ scope.old ++ definition_name scope.old d.now ∷ []) }
    ensures err { IfErr result (λ e. Finds e (of_definition first d.now scope.old)) }
{
    check_declared(scope, &d.name)?;
    let depth = check_value(alloc, scope, d)?;
    let sort = Sort::Definition {
        params: d.params.len(),
        depth,
    };
    declare(alloc, scope, &d.name, sort, false)?;
    Ok(())
}

/// Judges definitions in order, and makes each visible behind it.
pub fn check_definitions(alloc: Global, scope: &mut Scope, defs: &[Def]) -> Result<(), TypeErr>
    ensures ok { OnOk result (of_definitions first defs.now scope.old ≡ None) }
    ensures adds { OnOk result (scope.new ≡ definition_names scope.old defs.now) }
    ensures err { IfErr result (λ e. Finds e (of_definitions first defs.now scope.old)) }
{
    for d in defs {
        check_definition(alloc, scope, d)?;
    }
    Ok(())
}

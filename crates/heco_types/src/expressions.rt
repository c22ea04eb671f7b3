ghost use Rattle.std.specs.Prelude.{◌≡◌, None, OnOk, IfErr, length, map};
ghost use Rattle.heco_types.specs.Expressions.{used, invoked, each, of_expr, of_product, of_sum};
ghost use Rattle.heco_types.specs.Sites.{Finds, first};

use crate::context::Context;
use crate::refusal::TypeErr;
use crate::rules::{judge, rule_of_call, rule_of_use};
use crate::scope::Scope;
use heco_syntax::{Expr, Ident, ProdPart, SumPart};

fn check_use(
    scope: &Scope,
    inside: bool,
    context: Context,
    indexed: bool,
    name: &Ident,
) -> Result<(), TypeErr>
    ensures ok { OnOk result (used first inside indexed name.now context scope.now ≡ None) }
    ensures err { IfErr result (λ e. Finds e (used first inside indexed name.now context scope.now)) }
{
    let found = scope.find(name.text.as_slice());
    judge(rule_of_use(context, indexed, found), name.at)
}

fn check_call(
    scope: &Scope,
    inside: bool,
    context: Context,
    name: &Ident,
    count: usize,
) -> Result<(), TypeErr>
    ensures ok { OnOk result (invoked first inside count name.now context scope.now ≡ None) }
    ensures err { IfErr result (λ e. Finds e (invoked first inside count name.now context scope.now)) }
{
    let found = scope.find(name.text.as_slice());
    judge(rule_of_call(context, count, inside, found), name.at)
}

/// Judges an expression, where `inside` says whether it is the value of a definition.
#[cycle(check_expr)]
pub fn check_expr(scope: &Scope, inside: bool, context: Context, x: &Expr) -> Result<(), TypeErr>
    ensures ok { OnOk result (of_expr first inside x.now context scope.now ≡ None) }
    ensures err { IfErr result (λ e. Finds e (of_expr first inside x.now context scope.now)) }
{
    match x {
        Expr::Lit(_) => Ok(()),
        Expr::One(name) => check_use(scope, inside, context, false, name),
        Expr::Item { name, index } => {
            check_use(scope, inside, context, true, name)?;
            check_expr(scope, inside, Context::Index, index.get())
        }
        Expr::Neg { at: _, of } => check_expr(scope, inside, context, of.get()),
        Expr::Sum { first, rest } => {
            check_expr(scope, inside, context, first.get())?;
            check_sums(scope, inside, context, rest.as_slice())
        }
        Expr::Prod { first, rest } => {
            check_expr(scope, inside, context, first.get())?;
            check_products(scope, inside, context, rest.as_slice())
        }
        Expr::Call { name, args } => {
            check_call(scope, inside, context, name, args.len())?;
            check_values(scope, inside, context, args.as_slice())
        }
    }
}

#[cycle(check_expr)]
fn check_sums(
    scope: &Scope,
    inside: bool,
    context: Context,
    parts: &[SumPart],
) -> Result<(), TypeErr>
    ensures ok { OnOk result (each first inside (map (of_sum first inside) parts.now) context scope.now ≡ None) }
    ensures err { IfErr result (λ e. Finds e (each first inside (map (of_sum first inside) parts.now) context scope.now)) }
{
    for part in parts {
        check_expr(scope, inside, context, &part.of)?;
    }
    Ok(())
}

#[cycle(check_expr)]
fn check_products(
    scope: &Scope,
    inside: bool,
    context: Context,
    parts: &[ProdPart],
) -> Result<(), TypeErr>
    ensures ok { OnOk result (each first inside (map (of_product first inside) parts.now) context scope.now ≡ None) }
    ensures err { IfErr result (λ e. Finds e (each first inside (map (of_product first inside) parts.now) context scope.now)) }
{
    for part in parts {
        check_expr(scope, inside, context, &part.of)?;
    }
    Ok(())
}

/// Judges expressions in order.
#[cycle(check_expr)]
pub fn check_values(
    scope: &Scope,
    inside: bool,
    context: Context,
    values: &[Expr],
) -> Result<(), TypeErr>
    ensures ok { OnOk result (each first inside (map (of_expr first inside) values.now) context scope.now ≡ None) }
    ensures err { IfErr result (λ e. Finds e (each first inside (map (of_expr first inside) values.now) context scope.now)) }
{
    for x in values {
        check_expr(scope, inside, context, x)?;
    }
    Ok(())
}

ghost use Rattle.std.specs.Prelude.{◌≡◌, max, true, map};
ghost use Rattle.heco_types.specs.Expressions.{each, invoked, of_expr, of_product, of_sum};
ghost use Rattle.heco_types.specs.Names.{depth_of};
ghost use Rattle.heco_types.specs.Sites.{deepest};

use crate::context::Context;
use crate::name::Sort;
use crate::scope::Scope;
use heco_syntax::{Expr, Ident, ProdPart, SumPart};

fn depth_of(sort: Sort) -> u32
    ensures { result ≡ depth_of sort }
{
    match sort {
        Sort::Definition { params: _, depth } => depth,
        _ => 0,
    }
}

fn deeper(a: u32, b: u32) -> u32
    ensures { result ≡ max a b }
{
    if a < b { b } else { a }
}

fn depth_of_name(scope: &Scope, context: Context, name: &Ident, count: usize) -> u32
    ensures { result ≡ invoked deepest true count name.now context scope.now }
{
    match scope.find(name.text.as_slice()) {
        None => 0,
        Some(entity) => depth_of(entity.sort),
    }
}

/// How deep the definitions go that are called in the value of a definition.
#[cycle(depth)]
pub fn depth_called(scope: &Scope, context: Context, x: &Expr) -> u32
    ensures { result ≡ of_expr deepest true x.now context scope.now }
{
    match x {
        Expr::Lit(_) => 0,
        Expr::One(_) => 0,
        Expr::Item { name: _, index } => depth_called(scope, Context::Index, index.get()),
        Expr::Neg { at: _, of } => depth_called(scope, context, of.get()),
        Expr::Sum { first, rest } => {
            let d = depth_called(scope, context, first.get());
            deeper(d, depth_of_sums(scope, context, rest.as_slice()))
        }
        Expr::Prod { first, rest } => {
            let d = depth_called(scope, context, first.get());
            deeper(d, depth_of_products(scope, context, rest.as_slice()))
        }
        Expr::Call { name, args } => {
            let d = depth_of_name(scope, context, name, args.len());
            deeper(d, depth_of_values(scope, context, args.as_slice()))
        }
    }
}

#[cycle(depth)]
fn depth_of_sums(scope: &Scope, context: Context, parts: &[SumPart]) -> u32
    ensures { result ≡ each deepest true (map (of_sum deepest true) parts.now) context scope.now }
{
    let mut d = 0;
    for part in parts {
        d = deeper(d, depth_called(scope, context, &part.of));
    }
    d
}

#[cycle(depth)]
fn depth_of_products(scope: &Scope, context: Context, parts: &[ProdPart]) -> u32
    ensures { result ≡ each deepest true (map (of_product deepest true) parts.now) context scope.now }
{
    let mut d = 0;
    for part in parts {
        d = deeper(d, depth_called(scope, context, &part.of));
    }
    d
}

#[cycle(depth)]
fn depth_of_values(scope: &Scope, context: Context, values: &[Expr]) -> u32
    ensures { result ≡ each deepest true (map (of_expr deepest true) values.now) context scope.now }
{
    let mut d = 0;
    for x in values {
        d = deeper(d, depth_called(scope, context, x));
    }
    d
}

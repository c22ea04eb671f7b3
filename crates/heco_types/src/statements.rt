ghost use Rattle.std.specs.Prelude.{◌≡◌, ◌++◌, None, OnOk, IfErr, map, true, false};
ghost use Rattle.heco_types.specs.Expressions.{of_expr};
ghost use Rattle.heco_types.specs.Names.{visible};
ghost use Rattle.heco_types.specs.Sites.{Finds, first};
ghost use Rattle.heco_types.specs.Statements.{declared, target, counted, of_maybe, of_int_one, of_int_many, of_secret_one, of_secret_many, of_set, value_context, only, judged, of_block, added};

use crate::context::Context;
use crate::expressions::{check_expr, check_values};
use crate::name::{Entity, Sort};
use crate::refusal::TypeErr;
use crate::rules::{is_secret, judge, rule_of_declared, rule_of_length, rule_of_target};
use crate::scope::Scope;
use heco_nums::Memory;
use heco_syntax::{Expr, Ident, Num, Stmt};
use std::alloc::Global;

/// The most elements that an array may have, but for an input.
pub const MOST: u64 = 4096;

/// Judges a name that is declared.
pub fn check_declared(scope: &Scope, name: &Ident) -> Result<(), TypeErr>
    ensures ok { OnOk result (declared first name.now scope.now ≡ None) }
    ensures absent { OnOk result (visible scope.now name.now.text ≡ None) }
    ensures err { IfErr result (λ e. Finds e (declared first name.now scope.now)) }
{
    let found = scope.find(name.text.as_slice());
    judge(rule_of_declared(found), name.at)
}

fn check_target(scope: &Scope, indexed: bool, name: &Ident) -> Result<(), TypeErr>
    ensures ok { OnOk result (target first indexed name.now scope.now ≡ None) }
    ensures err { IfErr result (λ e. Finds e (target first indexed name.now scope.now)) }
{
    let found = scope.find(name.text.as_slice());
    judge(rule_of_target(indexed, found), name.at)
}

/// Judges a length, where `equal` says whether as many values are given.
pub fn check_length(scope: &Scope, len: Num, limit: u64, equal: bool) -> Result<(), TypeErr>
    ensures ok { OnOk result (counted first len limit equal scope.now ≡ None) }
    ensures err { IfErr result (λ e. Finds e (counted first len limit equal scope.now)) }
{
    judge(rule_of_length(len.value, limit, equal), len.at)
}

fn check_maybe(scope: &Scope, context: Context, x: &Option<Expr>) -> Result<(), TypeErr>
    ensures ok { OnOk result (of_maybe first x.now context scope.now ≡ None) }
    ensures err { IfErr result (λ e. Finds e (of_maybe first x.now context scope.now)) }
{
    match x {
        None => Ok(()),
        Some(x) => check_expr(scope, false, context, x),
    }
}

// Where the value of an assignment stands.
fn value_context(scope: &Scope, name: &Ident) -> Context
    ensures { result ≡ value_context (visible scope.now name.now.text) }
{
    match scope.find(name.text.as_slice()) {
        None => Context::Anywhere,
        Some(entity) => {
            if is_secret(entity.sort) {
                Context::Anywhere
            } else {
                Context::IntValue
            }
        }
    }
}

/// Makes a name visible.
pub fn declare(
    alloc: Global,
    scope: &mut Scope,
    name: &Ident,
    sort: Sort,
    array: bool,
) -> Result<(), Memory>
    requires { visible scope.old name.now.text ≡ None }
    ensures { OnOk result (scope.new ≡ scope.old ++ only name.now sort array) }
{
    scope.declare(alloc, name.text.as_slice(), Entity { sort, array })
}

fn check_int_one(
    alloc: Global,
    scope: &mut Scope,
    name: &Ident,
    value: &Expr,
) -> Result<(), TypeErr>
    ensures ok { OnOk result (of_int_one first name.now value.now scope.old ≡ None) }
    ensures adds { OnOk result (scope.new ≡ scope.old ++ only name.now Sort.Int false) }
    ensures err { IfErr result (λ e. Finds e (of_int_one first name.now value.now scope.old)) }
{
    check_declared(scope, name)?;
    check_expr(scope, false, Context::IntValue, value)?;
    declare(alloc, scope, name, Sort::Int, false)?;
    Ok(())
}

fn check_int_many(
    alloc: Global,
    scope: &mut Scope,
    name: &Ident,
    len: Num,
    values: &[Expr],
) -> Result<(), TypeErr>
    ensures ok { OnOk result (of_int_many first name.now len values.now scope.old ≡ None) }
    ensures adds { OnOk result (scope.new ≡ scope.old ++ only name.now Sort.Int true) }
    ensures err { IfErr result (λ e. Finds e (of_int_many first name.now len values.now scope.old)) }
{
    check_declared(scope, name)?;
    check_length(scope, len, MOST, len.value == values.len() as u64)?;
    check_values(scope, false, Context::IntValue, values)?;
    declare(alloc, scope, name, Sort::Int, true)?;
    Ok(())
}

fn check_secret_one(
    alloc: Global,
    scope: &mut Scope,
    name: &Ident,
    value: &Option<Expr>,
) -> Result<(), TypeErr>
    ensures ok { OnOk result (of_secret_one first name.now value.now scope.old ≡ None) }
    ensures adds { OnOk result (scope.new ≡ scope.old ++ only name.now Sort.Secret false) }
    ensures err { IfErr result (λ e. Finds e (of_secret_one first name.now value.now scope.old)) }
{
    check_declared(scope, name)?;
    check_maybe(scope, Context::Anywhere, value)?;
    declare(alloc, scope, name, Sort::Secret, false)?;
    Ok(())
}

fn check_secret_many(
    alloc: Global,
    scope: &mut Scope,
    name: &Ident,
    len: Num,
) -> Result<(), TypeErr>
    ensures ok { OnOk result (of_secret_many first name.now len scope.old ≡ None) }
    ensures adds { OnOk result (scope.new ≡ scope.old ++ only name.now Sort.Secret true) }
    ensures err { IfErr result (λ e. Finds e (of_secret_many first name.now len scope.old)) }
{
    check_declared(scope, name)?;
    check_length(scope, len, MOST, true)?;
    declare(alloc, scope, name, Sort::Secret, true)?;
    Ok(())
}

fn check_set(scope: &Scope, name: &Ident, index: &Option<Expr>, value: &Expr) -> Result<(), TypeErr>
    ensures ok { OnOk result (of_set first name.now index.now value.now scope.now ≡ None) }
    ensures err { IfErr result (λ e. Finds e (of_set first name.now index.now value.now scope.now)) }
{
    check_target(scope, index.is_some(), name)?;
    check_maybe(scope, Context::Index, index)?;
    check_expr(scope, false, value_context(scope, name), value)
}

/// Judges a statement, and makes visible what it declares.
#[cycle(check_all)]
fn check_stmt(alloc: Global, scope: &mut Scope, s: &Stmt) -> Result<(), TypeErr>
    ensures ok { OnOk result ((judged first s.now).told scope.old ≡ None) }
    ensures adds { OnOk result (scope.new ≡ scope.old ++ (judged first s.now).adds) }
    ensures err { IfErr result (λ e. Finds e ((judged first s.now).told scope.old)) }
{
    match s {
        Stmt::IntOne { at: _, name, value } => check_int_one(alloc, scope, name, value),
        Stmt::IntMany {
            at: _,
            name,
            len,
            values,
        } => check_int_many(alloc, scope, name, *len, values.as_slice()),
        Stmt::SecretOne { at: _, name, value } => check_secret_one(alloc, scope, name, value),
        Stmt::SecretMany { at: _, name, len } => check_secret_many(alloc, scope, name, *len),
        Stmt::Set {
            name,
            index,
            op: _,
            op_at: _,
            value,
        } => check_set(scope, name, index, value),
        Stmt::Loop {
            at: _,
            name,
            low,
            high,
            body,
        } => {
            check_declared(scope, name)?;
            check_expr(scope, false, Context::Bound, low)?;
            check_expr(scope, false, Context::Bound, high)?;
            let count = scope.len();
            declare(alloc, scope, name, Sort::Counter, false)?;
            check_all(alloc, scope, body.as_slice())?;
            scope.truncate(count);
            Ok(())
        }
        Stmt::Choice {
            at: _,
            cond,
            yes,
            no,
        } => {
            check_expr(scope, false, Context::Bound, cond)?;
            check_block(alloc, scope, yes.as_slice())?;
            match no {
                None => Ok(()),
                Some(no) => check_block(alloc, scope, no.as_slice()),
            }
        }
    }
}

// Judges a block, whose names go out with it.
#[cycle(check_all)]
fn check_block(alloc: Global, scope: &mut Scope, body: &[Stmt]) -> Result<(), TypeErr>
    ensures ok { OnOk result (of_block first body.now scope.old ≡ None) }
    ensures same { OnOk result (scope.new ≡ scope.old) }
    ensures err { IfErr result (λ e. Finds e (of_block first body.now scope.old)) }
{
    let count = scope.len();
    check_all(alloc, scope, body)?;
    scope.truncate(count);
    Ok(())
}

/// Judges statements in order, and makes visible what they declare.
#[cycle(check_all)]
pub fn check_all(alloc: Global, scope: &mut Scope, body: &[Stmt]) -> Result<(), TypeErr>
    ensures ok { OnOk result (of_block first body.now scope.old ≡ None) }
    ensures adds { OnOk result (scope.new ≡ scope.old ++ added (map (judged first) body.now)) }
    ensures err { IfErr result (λ e. Finds e (of_block first body.now scope.old)) }
{
    for s in body {
        check_stmt(alloc, scope, s)?;
    }
    Ok(())
}

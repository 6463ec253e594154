// What expressions use.
ghost use Rattle.std.specs.Prelude.{◌≡◌, IfOk, OnOk, map};
ghost use Rattle.sheet_uses.specs.Exprs.{expr_uses, arm_uses, bind_binder, clause_binder};
ghost use Rattle.sheet_uses.specs.Exprs.{flwor_uses, all_found, all_in, binders_in, behind};

use crate::leaves::{push_call, push_variable, with_bind, with_clause};
use crate::uses::Use;
use name_rules::VariableScope;
use std::alloc::AllocError;
use xt_names::List;
use xt_syntax::{Arm, Bind, Clause, Expr, Flwor};

/// Puts what the expression uses after the others, in reading order: variables but for those in
/// the scope and those that it binds itself (XPath 2.0, 3.1.2, 3.7 and 3.9), and all its calls of
/// functions (3.1.5). In forms that XPath does not have nothing is looked at.
#[cycle(uses)]
pub fn push_expr_uses(
    e: &Expr,
    scope: &VariableScope,
    found: &mut List<Use>,
) -> Result<(), AllocError>
    ensures { OnOk result (found.new ≡ (expr_uses e.now).finds scope.now found.old) }
{
    match e {
        Expr::Int(_) | Expr::Str(_) | Expr::Context | Expr::Root => Ok(()),
        Expr::Var(name) => push_variable(name, scope, found),
        Expr::Comma(all) | Expr::Or(all) | Expr::And(all) | Expr::Step(_, _, all) => {
            push_all(all.get().as_slice(), scope, found)
        }
        Expr::If(arms, other) => {
            push_arms(arms.get().as_slice(), scope, found)?;
            push_expr_uses(other.get(), scope, found)
        }
        Expr::Flwor(parts) => push_flwor(parts, scope, found),
        Expr::Quant(_, binds, test) => {
            let inner = push_binds(binds.get().as_slice(), scope, found)?;
            push_expr_uses(test.get(), &inner, found)
        }
        Expr::General(_, a, b)
        | Expr::Value(_, a, b)
        | Expr::Arith(_, a, b)
        | Expr::Is(a, b)
        | Expr::Before(a, b)
        | Expr::After(a, b)
        | Expr::Range(a, b)
        | Expr::Union(a, b)
        | Expr::Intersect(a, b)
        | Expr::Except(a, b)
        | Expr::Slash(a, b) => {
            push_expr_uses(a.get(), scope, found)?;
            push_expr_uses(b.get(), scope, found)
        }
        Expr::Minus(a)
        | Expr::Plus(a)
        | Expr::InstanceOf(a, _)
        | Expr::Treat(a, _)
        | Expr::Castable(a, _, _)
        | Expr::Cast(a, _, _) => push_expr_uses(a.get(), scope, found),
        Expr::Filter(of, tests) => {
            push_expr_uses(of.get(), scope, found)?;
            push_all(tests.get().as_slice(), scope, found)
        }
        Expr::Call(name, args) => {
            push_call(name, args.get().as_slice(), found)?;
            push_all(args.get().as_slice(), scope, found)
        }
        Expr::ElemC(_, _)
        | Expr::AttrC(_, _)
        | Expr::DocC(_)
        | Expr::TextC(_)
        | Expr::CommentC(_)
        | Expr::PiC(_, _)
        | Expr::Direct(_, _, _) => Ok(()),
    }
}

#[cycle(uses)]
fn push_all(all: &[Expr], scope: &VariableScope, found: &mut List<Use>) -> Result<(), AllocError>
    ensures { OnOk result (found.new ≡ all_found (map expr_uses all.now) scope.now found.old) }
{
    for e in all {
        push_expr_uses(e, scope, found)?;
    }
    Ok(())
}

#[cycle(uses)]
fn push_arms(all: &[Arm], scope: &VariableScope, found: &mut List<Use>) -> Result<(), AllocError>
    ensures { OnOk result (found.new ≡ all_in (map arm_uses all.now) scope.now found.old) }
{
    for arm in all {
        push_arm(arm, scope, found)?;
    }
    Ok(())
}

#[cycle(uses)]
fn push_arm(arm: &Arm, scope: &VariableScope, found: &mut List<Use>) -> Result<(), AllocError>
    ensures { OnOk result (found.new ≡ arm_uses arm.now scope.now found.old) }
{
    push_expr_uses(arm.test.get(), scope, found)?;
    push_expr_uses(arm.then.get(), scope, found)
}

#[cycle(uses)]
fn push_binds(
    all: &[Bind],
    scope: &VariableScope,
    found: &mut List<Use>,
) -> Result<VariableScope, AllocError>
    ensures found { IfOk result (λ inner. found.new
        ≡ binders_in (map bind_binder all.now) scope.now found.old) }
    ensures scope { IfOk result (λ inner. inner ≡ behind (map bind_binder all.now) scope.now) }
{
    let mut inner = scope.inside()?;
    for bind in all {
        push_bind(bind, &inner, found)?;
        inner = with_bind(inner, bind)?;
    }
    Ok(inner)
}

#[cycle(uses)]
fn push_bind(bind: &Bind, scope: &VariableScope, found: &mut List<Use>) -> Result<(), AllocError>
    ensures { OnOk result (found.new ≡ (bind_binder bind.now).source scope.now found.old) }
{
    push_expr_uses(bind.source.get(), scope, found)
}

#[cycle(uses)]
fn push_flwor(f: &Flwor, scope: &VariableScope, found: &mut List<Use>) -> Result<(), AllocError>
    ensures { OnOk result (found.new ≡ flwor_uses f.now scope.now found.old) }
{
    let inner = push_clauses(f.clauses.get().as_slice(), scope, found)?;
    push_expr_uses(f.body.get(), &inner, found)
}

#[cycle(uses)]
fn push_clauses(
    all: &[Clause],
    scope: &VariableScope,
    found: &mut List<Use>,
) -> Result<VariableScope, AllocError>
    ensures found { IfOk result (λ inner. found.new
        ≡ binders_in (map clause_binder all.now) scope.now found.old) }
    ensures scope { IfOk result (λ inner. inner ≡ behind (map clause_binder all.now) scope.now) }
{
    let mut inner = scope.inside()?;
    for clause in all {
        push_clause(clause, &inner, found)?;
        inner = with_clause(inner, clause)?;
    }
    Ok(inner)
}

#[cycle(uses)]
fn push_clause(
    clause: &Clause,
    scope: &VariableScope,
    found: &mut List<Use>,
) -> Result<(), AllocError>
    ensures { OnOk result (found.new ≡ (clause_binder clause.now).source scope.now found.old) }
{
    match clause {
        Clause::For(bind, _) | Clause::Let(bind) => {
            push_expr_uses(bind.source.get(), scope, found)
        }
    }
}

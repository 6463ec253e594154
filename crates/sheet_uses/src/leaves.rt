// Single uses, and what binds variables.
ghost use Rattle.std.specs.Prelude.{◌≡◌, IfOk, OnOk, map, length, Option};
ghost use Rattle.name_rules.specs.Scopes.{with_names};
ghost use Rattle.sheet_uses.specs.Exprs.{expr_uses, bind_binder, clause_binder, variable_in};
ghost use Rattle.sheet_uses.specs.Exprs.{first_literal, called};

use crate::uses::Use;
use name_rules::VariableScope;
use std::alloc::AllocError;
use xt_names::{ExprName, List, Text};
use xt_syntax::{Bind, Clause, Expr};

/// Puts the variable after the others, unless it is bound within.
#[tactic(auto, unfolding(crate::specs::Exprs::variable_in))]
pub(crate) fn push_variable(
    name: &ExprName,
    scope: &VariableScope,
    found: &mut List<Use>,
) -> Result<(), AllocError>
    ensures { OnOk result (found.new ≡ variable_in name.now scope.now found.old) }
{
    if scope.has(name) {
        return Ok(());
    }
    found.push(Use::Variable(name.copy()?))
}

/// Puts the call after the others.
pub(crate) fn push_call(
    name: &ExprName,
    args: &[Expr],
    found: &mut List<Use>,
) -> Result<(), AllocError>
    ensures { OnOk result (found.new
        ≡ called name.now (length args.now) (first_literal (map expr_uses args.now)) found.old) }
{
    let literal = literal_first(args)?;
    let name = name.copy()?;
    found.push(Use::Call(name, args.len(), literal))
}

fn literal_first(args: &[Expr]) -> Result<Option<Text>, AllocError>
    ensures { IfOk result (λ literal. literal ≡ first_literal (map expr_uses args.now)) }
{
    match args {
        [] => Ok(None),
        [first, ..] => literal_in(first),
    }
}

/// The text of a literal.
fn literal_in(e: &Expr) -> Result<Option<Text>, AllocError>
    ensures { IfOk result (λ literal. literal ≡ (expr_uses e.now).literal) }
{
    match e {
        Expr::Str(text) => Ok(Some(text.copy()?)),
        Expr::Int(_)
        | Expr::Var(_)
        | Expr::Context
        | Expr::Root
        | Expr::Comma(_)
        | Expr::Or(_)
        | Expr::And(_)
        | Expr::If(_, _)
        | Expr::Flwor(_)
        | Expr::Quant(_, _, _)
        | Expr::General(_, _, _)
        | Expr::Value(_, _, _)
        | Expr::Is(_, _)
        | Expr::Before(_, _)
        | Expr::After(_, _)
        | Expr::Range(_, _)
        | Expr::Arith(_, _, _)
        | Expr::Minus(_)
        | Expr::Plus(_)
        | Expr::Union(_, _)
        | Expr::Intersect(_, _)
        | Expr::Except(_, _)
        | Expr::InstanceOf(_, _)
        | Expr::Treat(_, _)
        | Expr::Castable(_, _, _)
        | Expr::Cast(_, _, _)
        | Expr::Slash(_, _)
        | Expr::Step(_, _, _)
        | Expr::Filter(_, _)
        | Expr::Call(_, _)
        | Expr::ElemC(_, _)
        | Expr::AttrC(_, _)
        | Expr::DocC(_)
        | Expr::TextC(_)
        | Expr::CommentC(_)
        | Expr::PiC(_, _)
        | Expr::Direct(_, _, _) => Ok(None),
    }
}

/// The scope with the variable too.
pub(crate) fn with_bind(scope: VariableScope, bind: &Bind) -> Result<VariableScope, AllocError>
    ensures { IfOk result (λ inner. inner ≡ with_names scope (bind_binder bind.now).names) }
{
    scope.with(bind.var.copy()?)
}

/// The scope with the variable of the clause too.
pub(crate) fn with_clause(
    scope: VariableScope,
    clause: &Clause,
) -> Result<VariableScope, AllocError>
    ensures { IfOk result (λ inner. inner ≡ with_names scope (clause_binder clause.now).names) }
{
    match clause {
        Clause::For(bind, _) | Clause::Let(bind) => scope.with(bind.var.copy()?),
    }
}

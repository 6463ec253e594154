// Paths and filters.
ghost use Rattle.std.specs.Prelude.{◌≡◌, [], IfOk};
ghost use Rattle.xt_syntax.specs.declared.exprs.Expr.TheVariants.{Slash, Step};
ghost use Rattle.xt_types.specs.declared.axes.Axis.TheVariants.{DescendantOrSelf};
ghost use Rattle.xt_types.specs.declared.node_tests.Test.TheVariants.{Node};
ghost use Rattle.expr_rules.specs.declared.expr_meant.meant.Meant.TheVariants.{Expr as as_expr};
ghost use Rattle.expr_rules.specs.ExprMeant.Parts.{expr_of};
ghost use Rattle.expr_primaries.specs.ExprPaths.Paths.{deep, stepped, path_from, steps, root_steps, deep_steps, filtered};

use crate::expr_paths::primaries::nothing;
use expr_rules::expr_meant::{Meant, as_part, expr_of, exprs_of};
use std::alloc::{AllocError, Global};
use xt_names::{List, Shared};
use xt_syntax::Expr;
use xt_types::{Axis, Test};

fn slash(alloc: Global, a: Shared<Expr>, b: Shared<Expr>) -> Result<Shared<Expr>, AllocError>
    ensures { IfOk result (λ e. e ≡ Slash a b) }
{
    Shared::make(alloc, Expr::Slash(a, b))
}

fn all_below(alloc: Global) -> Result<Shared<Expr>, AllocError>
    ensures { IfOk result (λ e. e ≡ Step DescendantOrSelf Node []) }
{
    let none = Shared::make(alloc, List::new(alloc))?;
    Shared::make(alloc, Expr::Step(Axis::DescendantOrSelf, Test::Node, none))
}

/// `a//`, where a step is to follow.
fn deep(alloc: Global, a: Shared<Expr>) -> Result<Shared<Expr>, AllocError>
    ensures { IfOk result (λ e. e ≡ deep a) }
{
    let below = all_below(alloc)?;
    slash(alloc, a, below)
}

fn deep_step(alloc: Global, a: Shared<Expr>, b: &Shared<Expr>) -> Result<Shared<Expr>, AllocError>
    ensures { IfOk result (λ e. e ≡ Slash (deep a) b.now) }
{
    let above = deep(alloc, a)?;
    let b = b.copy()?;
    slash(alloc, above, b)
}

fn plain_step(alloc: Global, a: Shared<Expr>, part: &Meant) -> Result<Shared<Expr>, AllocError>
    ensures { IfOk result (λ e. e ≡ Slash a (expr_of part.now)) }
{
    let b = expr_of(alloc, part)?;
    slash(alloc, a, b)
}

#[tactic(auto, unfolding(crate::specs::ExprPaths::Paths::stepped))]
fn stepped(alloc: Global, a: Shared<Expr>, part: &Meant) -> Result<Shared<Expr>, AllocError>
    ensures { IfOk result (λ e. e ≡ stepped a part.now) }
{
    match part {
        Meant::Deep(b) => deep_step(alloc, a, b),
        _ => plain_step(alloc, a, part),
    }
}

fn path_from(alloc: Global, a: Shared<Expr>, parts: &[Meant]) -> Result<Shared<Expr>, AllocError>
    ensures { IfOk result (λ e. e ≡ path_from a parts.now) }
{
    let mut path = a;
    for part in parts {
        path = stepped(alloc, path, part)?;
    }
    Ok(path)
}

/// `a/b//c`, from the parts `a`, `b` and `c`.
pub fn steps(alloc: Global, parts: &[Meant]) -> Result<Meant, AllocError>
    ensures { IfOk result (λ made. made ≡ as_expr (steps parts.now)) }
{
    match parts {
        [] => nothing(alloc),
        [front, rest @ ..] => {
            let a = expr_of(alloc, front)?;
            Ok(Meant::Expr(path_from(alloc, a, rest)?))
        }
    }
}

/// `/a/b`, from the parts `a` and `b`.
pub fn root_steps(alloc: Global, parts: &[Meant]) -> Result<Meant, AllocError>
    ensures { IfOk result (λ made. made ≡ as_expr (root_steps parts.now)) }
{
    let root = Shared::make(alloc, Expr::Root)?;
    Ok(Meant::Expr(path_from(alloc, root, parts)?))
}

/// `//a/b`, from the parts `a` and `b`.
pub fn deep_steps(alloc: Global, parts: &[Meant]) -> Result<Meant, AllocError>
    ensures { IfOk result (λ made. made ≡ as_expr (deep_steps parts.now)) }
{
    let root = Shared::make(alloc, Expr::Root)?;
    let below = deep(alloc, root)?;
    Ok(Meant::Expr(path_from(alloc, below, parts)?))
}

/// `a[p]..`.
pub fn filtered(alloc: Global, parts: &[Meant]) -> Result<Meant, AllocError>
    ensures { IfOk result (λ made. made ≡ as_expr (filtered parts.now)) }
{
    match parts {
        [] => nothing(alloc),
        [front, rest @ ..] => {
            let a = expr_of(alloc, front)?;
            let tests = Shared::make(alloc, exprs_of(alloc, rest)?)?;
            as_part(alloc, Expr::Filter(a, tests))
        }
    }
}

// Which production means what.
ghost use Rattle.std.specs.Prelude.{◌≡◌, IfOk};
ghost use Rattle.expr_rules.specs.declared.expr_meant.meant.Meant.TheVariants.{Arguments, Deep, Kind};
ghost use Rattle.expr_rules.specs.ExprMeant.Parts.{exprs_of, expr_in};
ghost use Rattle.expr_primaries.specs.ExprPaths.Steps.{pi_kind, named_kind};
ghost use Rattle.expr_primaries.specs.ExprPaths.Table.{path_value};

use crate::expr_paths::kinds::{named_kind, pi_kind, plain_kind};
use crate::expr_paths::paths::{deep_steps, filtered, root_steps, steps};
use crate::expr_paths::primaries::{call, literal, only_expr, variable};
use crate::expr_paths::walks::{attribute_step, axis_step, parent_step, test_step};
use bound_prefixes::BoundPrefixes;
use expr_rules::expr_meant::{Meant, as_part, expr_in, exprs_of};
use expr_terms::Production;
use std::alloc::{AllocError, Global};
use xt_names::{Shared, Text};
use xt_syntax::{Expr, Prefixes};

fn deep_after(alloc: Global, parts: &[Meant]) -> Result<Meant, AllocError>
    ensures { IfOk result (λ made. made ≡ Deep (expr_in parts.now)) }
{
    Ok(Meant::Deep(expr_in(alloc, parts)?))
}

fn argued(alloc: Global, parts: &[Meant]) -> Result<Meant, AllocError>
    ensures { IfOk result (λ made. made ≡ Arguments (exprs_of parts.now)) }
{
    Ok(Meant::Arguments(Shared::make(alloc, exprs_of(alloc, parts)?)?))
}

fn pi_kind_part(alloc: Global, parts: &[Meant]) -> Result<Meant, AllocError>
    ensures { IfOk result (λ made. made ≡ Kind (pi_kind parts.now)) }
{
    Ok(Meant::Kind(pi_kind(alloc, parts)?))
}

fn named_kind_part(
    alloc: Global,
    bound: &BoundPrefixes,
    default: &Text,
    parts: &[Meant],
) -> Result<Meant, AllocError>
    ensures { IfOk result (λ made. made ≡ Kind (named_kind bound.now default.now parts.now)) }
{
    Ok(Meant::Kind(named_kind(alloc, bound, default, parts)?))
}

/// What the production of a path or a primary expression means, from what its parts mean.
#[tactic(auto, unfolding(crate::specs::ExprPaths::Table::path_value))]
pub fn path_value(
    alloc: Global,
    p: &Prefixes,
    production: Production,
    parts: &[Meant],
) -> Result<Meant, AllocError>
    ensures { IfOk result (λ made. made ≡ path_value p.now production parts.now) }
{
    let bound = &p.bound;
    match production {
        Production::Rooted => as_part(alloc, Expr::Root),
        Production::RootSteps => root_steps(alloc, parts),
        Production::RootedDeep => deep_steps(alloc, parts),
        Production::Steps => steps(alloc, parts),
        Production::StepAfter => only_expr(alloc, parts),
        Production::DeepAfter => deep_after(alloc, parts),
        Production::AxisStep => axis_step(alloc, bound, &p.element_default, parts),
        Production::AttributeStep => attribute_step(alloc, bound, parts),
        Production::TestStep => test_step(alloc, bound, &p.element_default, parts),
        Production::ParentStep => parent_step(alloc, parts),
        Production::FilterStep => filtered(alloc, parts),
        Production::PlainKind => Ok(Meant::Kind(plain_kind(parts))),
        Production::PiKind => pi_kind_part(alloc, parts),
        Production::NamedKind => named_kind_part(alloc, bound, &p.element_default, parts),
        Production::Number => literal(alloc, parts),
        Production::Literal => literal(alloc, parts),
        Production::Variable => variable(alloc, bound, parts),
        Production::Parens => only_expr(alloc, parts),
        Production::Context => as_part(alloc, Expr::Context),
        Production::Call => call(alloc, bound, &p.function_default, parts),
        Production::ArgumentList => argued(alloc, parts),
        _ => Ok(Meant::Mark),
    }
}

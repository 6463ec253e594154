// Steps along an axis.
ghost use Rattle.std.specs.Prelude.{◌≡◌, IfOk};
ghost use Rattle.xt_syntax.specs.declared.exprs.Expr.TheVariants.{Step};
ghost use Rattle.expr_rules.specs.declared.expr_meant.meant.Meant.TheVariants.{Expr as as_expr};
ghost use Rattle.expr_rules.specs.ExprMeant.Parts.{exprs_of};
ghost use Rattle.expr_primaries.specs.ExprPaths.Steps.{axis_of, defaulted, test_on, axis_for_test, axis_for, step_on, axis_step, attribute_step, test_step, parent_step};

use bound_prefixes::BoundPrefixes;
use expr_rules::expr_meant::{Meant, as_part, exprs_of, key_of};
use expr_rules::expr_names::{default_in, no_text};
use expr_rules::name_test_of;
use expr_terms::Key;
use std::alloc::{AllocError, Global};
use xt_names::{Shared, Text};
use xt_syntax::Expr;
use xt_types::{Axis, NameTest, Test};

#[tactic(auto, unfolding(crate::specs::ExprPaths::Steps::axis_of))]
fn axis_of(key: Key) -> Axis
    ensures { result ≡ axis_of key }
{
    match key {
        Key::AncestorWord => Axis::Ancestor,
        Key::AncestorOrSelfWord => Axis::AncestorOrSelf,
        Key::AttributeWord => Axis::Attribute,
        Key::DescendantWord => Axis::Descendant,
        Key::DescendantOrSelfWord => Axis::DescendantOrSelf,
        Key::FollowingWord => Axis::Following,
        Key::FollowingSiblingWord => Axis::FollowingSibling,
        Key::ParentWord => Axis::Parent,
        Key::PrecedingWord => Axis::Preceding,
        Key::PrecedingSiblingWord => Axis::PrecedingSibling,
        Key::SelfWord => Axis::Itself,
        _ => Axis::Child,
    }
}

#[tactic(auto, unfolding(crate::specs::ExprPaths::Steps::defaulted))]
fn defaulted(default: &Text, axis: Axis, name: NameTest) -> Result<NameTest, AllocError>
    ensures { IfOk result (λ made. made ≡ defaulted default.now axis name) }
{
    match axis {
        Axis::Attribute => Ok(name),
        _ => default_in(default, &name),
    }
}

#[tactic(auto, unfolding(crate::specs::ExprPaths::Steps::test_on))]
fn test_on(
    alloc: Global,
    bound: &BoundPrefixes,
    default: &Text,
    axis: Axis,
    part: &Meant,
) -> Result<Test, AllocError>
    ensures { IfOk result (λ made. made ≡ test_on bound.now default.now axis part.now) }
{
    match part {
        Meant::Kind(kind) => kind.copy(),
        _ => {
            let name = name_test_of(alloc, bound, part)?;
            Ok(Test::Named(defaulted(default, axis, name)?))
        }
    }
}

#[tactic(auto, unfolding(crate::specs::ExprPaths::Steps::axis_for_test))]
fn axis_for_test(test: &Test) -> Axis
    ensures { result ≡ axis_for_test test.now }
{
    match test {
        Test::Attr(_) => Axis::Attribute,
        _ => Axis::Child,
    }
}

#[tactic(auto, unfolding(crate::specs::ExprPaths::Steps::axis_for))]
fn axis_for(part: &Meant) -> Axis
    ensures { result ≡ axis_for part.now }
{
    match part {
        Meant::Kind(kind) => axis_for_test(kind),
        _ => Axis::Child,
    }
}

fn step(alloc: Global, axis: Axis, test: Test, parts: &[Meant]) -> Result<Meant, AllocError>
    ensures { IfOk result (λ made. made ≡ as_expr (Step axis test (exprs_of parts.now))) }
{
    let tests = Shared::make(alloc, exprs_of(alloc, parts)?)?;
    as_part(alloc, Expr::Step(axis, test, tests))
}

fn step_on(
    alloc: Global,
    bound: &BoundPrefixes,
    default: &Text,
    axis: Axis,
    parts: &[Meant],
) -> Result<Meant, AllocError>
    ensures { IfOk result (λ made. made ≡ as_expr (step_on bound.now default.now axis parts.now)) }
{
    match parts {
        [] => step(alloc, axis, Test::Node, parts),
        [test, rest @ ..] => {
            let test = test_on(alloc, bound, default, axis, test)?;
            step(alloc, axis, test, rest)
        }
    }
}

/// `axis::test[p]..`.
pub fn axis_step(
    alloc: Global,
    bound: &BoundPrefixes,
    default: &Text,
    parts: &[Meant],
) -> Result<Meant, AllocError>
    ensures { IfOk result (λ made. made ≡ as_expr (axis_step bound.now default.now parts.now)) }
{
    match parts {
        [] => step(alloc, Axis::Child, Test::Node, parts),
        [word, rest @ ..] => step_on(alloc, bound, default, axis_of(key_of(word)), rest),
    }
}

/// `@test[p]..`.
pub fn attribute_step(
    alloc: Global,
    bound: &BoundPrefixes,
    parts: &[Meant],
) -> Result<Meant, AllocError>
    ensures { IfOk result (λ made. made ≡ as_expr (attribute_step bound.now parts.now)) }
{
    let none = no_text(alloc)?;
    step_on(alloc, bound, &none, Axis::Attribute, parts)
}

/// `test[p]..`, on the axis of attributes where it is a test for them.
pub fn test_step(
    alloc: Global,
    bound: &BoundPrefixes,
    default: &Text,
    parts: &[Meant],
) -> Result<Meant, AllocError>
    ensures { IfOk result (λ made. made ≡ as_expr (test_step bound.now default.now parts.now)) }
{
    match parts {
        [] => step(alloc, Axis::Child, Test::Node, parts),
        [test, ..] => step_on(alloc, bound, default, axis_for(test), parts),
    }
}

/// `..[p]..`.
pub fn parent_step(alloc: Global, parts: &[Meant]) -> Result<Meant, AllocError>
    ensures { IfOk result (λ made. made ≡ as_expr (parent_step parts.now)) }
{
    step(alloc, Axis::Parent, Test::Node, parts)
}

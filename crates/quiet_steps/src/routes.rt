// From where, and along which axis, an expression is walked.
ghost use Rattle.std.specs.Prelude.{◌≡◌, IfOk, option_map};
ghost use Rattle.std.specs.List.{list_all};
ghost use Rattle.quiet_eval.specs.QuietPlaces.Free.{is_place_free_expr};
ghost use Rattle.walk_laws.specs.WayLaws.Ways.{begin_of, document_above, has_none, is_all_below};
ghost use Rattle.walk_laws.specs.WayLaws.Ways.{is_any_node, is_child_axis, is_deep, is_deep_axis};
ghost use Rattle.walk_laws.specs.WayLaws.Ways.{last_step, path_in, way, way_at};
ghost use Rattle.quiet_steps.specs.Routes.{way_along};
ghost use Rattle.xt_syntax.specs.declared.exprs.Clause.TheViews.{out-Expr};

use eval_lates::eval_scopes::document_of;
use quiet_eval::quiet_places::is_place_free;
use std::alloc::{AllocError, Global};
use xt_names::List;
use xt_syntax::Expr;
use xt_tree::Node;
use xt_types::{Axis, Test};

/// From a node along an axis to the nodes that pass the test, of which the predicates keep some.
#[derive(Drop)]
pub(crate) struct Route<'a> {
    pub(crate) from: Node,
    pub(crate) axis: Axis,
    pub(crate) test: &'a Test,
    pub(crate) tests: &'a List<Expr>,
}

fn route_from<'a>(
    from: Option<Node>,
    axis: Axis,
    test: &'a Test,
    tests: &'a List<Expr>,
) -> Option<Route<'a>>
    ensures { option_map way_along result ≡ option_map (way axis test.now tests.now) from }
{
    match from {
        Some(from) => Some(Route {
            from,
            axis,
            test,
            tests,
        }),
        None => None,
    }
}

/// The root of the node's tree, where it is a document.
#[tactic(auto, using(crate::proofs::Answered::document_is))]
fn document_above(alloc: Global, node: &Node) -> Result<Option<Node>, AllocError>
    ensures { IfOk result (λ root. root ≡ document_above node.now) }
{
    document_of(alloc, node)
}

/// The node that `.` or `/` is; None of any other expression.
fn begin_of(alloc: Global, a: &Expr, context: &Node) -> Result<Option<Node>, AllocError>
    ensures { IfOk result (λ node. node ≡ begin_of a.now context.now) }
{
    match a {
        Expr::Context => Ok(Some(context.copy()?)),
        Expr::Root => document_above(alloc, context),
        _ => Ok(None),
    }
}

#[tactic(auto, unfolding(walk_laws::specs::WayLaws::Ways::is_child_axis))]
fn is_child_axis(axis: Axis) -> bool
    ensures { result ≡ is_child_axis axis }
{
    matches!(axis, Axis::Child)
}

#[tactic(auto, unfolding(walk_laws::specs::WayLaws::Ways::is_deep_axis))]
fn is_deep_axis(axis: Axis) -> bool
    ensures { result ≡ is_deep_axis axis }
{
    matches!(axis, Axis::DescendantOrSelf)
}

#[tactic(auto, unfolding(walk_laws::specs::WayLaws::Ways::is_any_node))]
fn is_any_node(test: &Test) -> bool
    ensures { result ≡ is_any_node test.now }
{
    matches!(test, Test::Node)
}

fn has_none(tests: &[Expr]) -> bool
    ensures { result ≡ has_none tests.now }
{
    match tests {
        [] => true,
        _ => false,
    }
}

/// Whether it is `descendant-or-self::node()`.
fn is_all_below(e: &Expr) -> bool
    ensures { result ≡ is_all_below e.now }
{
    match e {
        Expr::Step(axis, test, tests) => {
            is_deep_axis(*axis) && is_any_node(test) && has_none(tests.get().as_slice())
        }
        _ => false,
    }
}

fn are_place_free(tests: &[Expr]) -> bool
    ensures { result ≡ list_all is_place_free_expr tests.now }
{
    tests.iter().all(|e| is_place_free(e))
}

/// Whether the last two steps of `a//b[p]` are one along the descendants.
fn is_deep(axis: Axis, all: &Expr, tests: &[Expr]) -> bool
    ensures { result ≡ is_deep axis all.now tests.now }
{
    is_child_axis(axis) && is_all_below(all) && are_place_free(tests)
}

/// A path with this last step.
fn last_step<'a>(
    alloc: Global,
    a: &Expr,
    axis: Axis,
    test: &'a Test,
    tests: &'a List<Expr>,
    context: &Node,
) -> Result<Option<Route<'a>>, AllocError>
    ensures { IfOk result (λ route. option_map way_along route
        ≡ last_step a.now axis test.now tests.now context.now) }
{
    match a {
        Expr::Slash(c, all) => {
            if !is_deep(axis, all.get(), tests.as_slice()) {
                return Ok(None);
            }
            let from = begin_of(alloc, c.get(), context)?;
            Ok(route_from(from, Axis::Descendant, test, tests))
        }
        _ => {
            let from = begin_of(alloc, a, context)?;
            Ok(route_from(from, axis, test, tests))
        }
    }
}

fn route_of_path<'a>(
    alloc: Global,
    a: &Expr,
    b: &'a Expr,
    context: &Node,
) -> Result<Option<Route<'a>>, AllocError>
    ensures { IfOk result (λ route. option_map way_along route
        ≡ path_in a.now (out-Expr b.now) context.now) }
{
    match b {
        Expr::Step(axis, test, tests) => { last_step(alloc, a, *axis, test, tests.get(), context) }
        _ => Ok(None),
    }
}

/// How the expression is walked, where this is the context node; None where no walk along one axis
/// gives what it means.
pub(crate) fn route_of<'a>(
    alloc: Global,
    e: &'a Expr,
    context: &Node,
) -> Result<Option<Route<'a>>, AllocError>
    ensures { IfOk result (λ route. option_map way_along route ≡ way_at e.now context.now) }
{
    match e {
        Expr::Step(axis, test, tests) => {
            let from = Some(context.copy()?);
            Ok(route_from(from, *axis, test, tests.get()))
        }
        Expr::Slash(a, b) => route_of_path(alloc, a.get(), b.get(), context),
        _ => Ok(None),
    }
}

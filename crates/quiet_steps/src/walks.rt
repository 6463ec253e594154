// Walks that are made on demand.
ghost use Rattle.std.specs.Prelude.{◌≡◌, ℕ, IfOk, Some, map, option_and_then, true};
ghost use Rattle.std.specs.List.{list_all};
ghost use Rattle.xt_tree.specs.Place.{has_place};
ghost use Rattle.xt_forms.specs.Quiet.{is_quiet_expr};
ghost use Rattle.xdm_items.specs.declared.items.Item.TheVariants.{Node as a_node};
ghost use Rattle.node_axes.specs.Axes.{is_reverse};
ghost use Rattle.node_axes.specs.StepWalks.Hits.{hits_ahead};
ghost use Rattle.node_axes.specs.StepWalks.Nodes.{kept_by_all};
ghost use Rattle.quiet_meaning.specs.Paths.{are_allowed, keeps};
ghost use Rattle.node_walks.specs.Moves.{given};
ghost use Rattle.expr_meaning.specs.Env.{Program};
ghost use Rattle.expr_meaning.specs.Meaning.{outcome};
ghost use Rattle.expr_meaning.specs.Paths.{kept};
ghost use Rattle.expr_meaning.specs.Outcomes.Outcome.{and_then};
ghost use Rattle.eval_lates.specs.EvalScopes.Answers.{Answers};
ghost use Rattle.eval_lates.specs.EvalScopes.Scopes.{env_of};
ghost use Rattle.eval_lates.specs.Late.{AnswersLate, literal};
ghost use Rattle.quiet_steps.specs.Late.{AnswersWalk, AnswersWay, IsValue};
ghost use Rattle.quiet_steps.specs.Routes.{way_along};
ghost use Rattle.walk_laws.specs.WayLaws.Ways.{can_be_counted, has_walk, is_walked, node_in};
ghost use Rattle.walk_laws.specs.WayLaws.Ways.{way_at, way_nodes, way_of};

use crate::routes::{Route, route_of};
use eval_lates::eval_scopes::{Env, EvalFault, Focus};
use eval_lates::late_place;
use lazy_seq::Seq;
use node_axes::Cursor;
use std::alloc::{AllocError, Global};
use xdm_items::{Item, ItemList};
use xt_forms::is_quiet;
use xt_names::{List, copy_list};
use xt_syntax::Expr;
use xt_tree::Node;
use xt_types::Axis;

/// Whether the axis runs against document order (XPath 2.0, 3.2.1.1).
#[tactic(auto, unfolding(node_axes::specs::Axes::is_reverse))]
fn is_reverse(axis: Axis) -> bool
    ensures { result ≡ is_reverse axis }
{
    match axis {
        Axis::Parent
        | Axis::Ancestor
        | Axis::PrecedingSibling
        | Axis::Preceding
        | Axis::AncestorOrSelf => true,
        Axis::Child
        | Axis::Descendant
        | Axis::Attribute
        | Axis::Itself
        | Axis::DescendantOrSelf
        | Axis::FollowingSibling
        | Axis::Following => false,
    }
}

fn are_quiet(tests: &[Expr]) -> bool
    ensures { result ≡ list_all is_quiet_expr tests.now }
{
    tests.iter().all(|e| is_quiet(e))
}

/// Whether the tree of the node has fewer than 2^63 nodes.
fn can_be_counted(node: &Node) -> bool
    ensures few { result ≡ can_be_counted node.now }
    ensures exists { has_place node.now ≡ true }
{
    // The kind of a node shows the proof that its tree has its place.
    let _kind = node.kind();
    node.tree().size() < 0x8000_0000_0000_0000
}

fn is_walked(route: &Route) -> bool
    ensures walked { result ≡ is_walked (way_along route.now) }
    ensures exists { has_place route.now.from ≡ true }
{
    let counted = can_be_counted(&route.from);
    !is_reverse(route.axis) && are_quiet(route.tests.as_slice()) && counted
}

/// Those nodes ahead of the cursor that pass its test and that the predicates keep, not looked for
/// yet.
#[tactic(auto, unfolding(node_axes::specs::StepWalks::Nodes::kept_by_all))]
fn walk_from(alloc: Global, cursor: Cursor, tests: &List<Expr>) -> Result<Seq, AllocError>
    requires { are_allowed tests.now ≡ true }
    ensures { let kept = kept_by_all (keeps tests.now) (hits_ahead cursor) in
        IfOk result (λ seq. given seq.moves ≡ map a_node kept) }
{
    match tests.as_slice() {
        [] => Seq::of_cursor(alloc, cursor),
        _ => {
            let tests = copy_list(tests)?;
            Seq::of_quiet(alloc, cursor, tests)
        }
    }
}

#[tactic(auto, unfolding(node_axes::specs::StepWalks::Hits::hits_ahead))]
fn walk_along(alloc: Global, route: &Route) -> Result<Seq, AllocError>
    requires { is_walked (way_along route.now) ≡ true }
    ensures { let nodes = way_nodes (way_along route.now) in
        IfOk result (λ seq. given seq.moves ≡ map a_node nodes) }
{
    let cursor = Cursor::new(alloc, &route.from, route.axis, route.test.copy()?)?;
    walk_from(alloc, cursor, route.tests)
}

fn walk_if(alloc: Global, route: Route) -> Result<Option<Seq>, AllocError>
    ensures { IfOk result (λ found. AnswersWay found (Some (way_along route.entry))) }
{
    if is_walked(&route) {
        Ok(Some(walk_along(alloc, &route)?))
    } else {
        Ok(None)
    }
}

fn walk_at(alloc: Global, e: &Expr, context: &Node) -> Result<Option<Seq>, AllocError>
    ensures { IfOk result (λ found. AnswersWay found (way_at e.now context.now)) }
{
    match route_of(alloc, e, context)? {
        Some(route) => walk_if(alloc, route),
        None => Ok(None),
    }
}

fn walk_at_item(alloc: Global, e: &Expr, item: &Item) -> Result<Option<Seq>, AllocError>
    ensures { let way = option_and_then (way_at e.now) (node_in item.now) in
        IfOk result (λ found. AnswersWay found way) }
{
    match item {
        Item::Node(node) => walk_at(alloc, e, node),
        Item::Atom(_) => Ok(None),
    }
}

fn has_walk_from(alloc: Global, e: &Expr, context: &Node) -> Result<bool, AllocError>
    ensures { IfOk result (λ b. b ≡ has_walk (way_at e.now context.now)) }
{
    match route_of(alloc, e, context)? {
        Some(route) => Ok(is_walked(&route)),
        None => Ok(false),
    }
}

fn has_walk_at(alloc: Global, e: &Expr, item: &Item) -> Result<bool, AllocError>
    ensures { let way = option_and_then (way_at e.now) (node_in item.now) in
        IfOk result (λ b. b ≡ has_walk way) }
{
    match item {
        Item::Node(node) => has_walk_from(alloc, e, node),
        Item::Atom(_) => Ok(false),
    }
}

/// Whether one walk along an axis answers the expression: it is a step, or a path of one step from
/// `.`, `/`, `.//` or `//`, the axis does not run against document order, the predicates are quiet,
/// and those of `.//` or `//` look at no position (XPath 2.0, 3.2). There is a context node, of a
/// tree with fewer than 2^63 nodes; of `/` and `//` its root is a document.
#[inline(never)]
pub fn has_late_walk(alloc: Global, env: &Env, e: &Expr) -> Result<bool, AllocError>
    ensures { IfOk result (λ b. b ≡ has_walk (way_of e.now (env_of env.now).focus)) }
{
    match env.focus {
        Focus::Absent => Ok(false),
        Focus::At { item, .. } => has_walk_at(alloc, e, item),
    }
}

#[tactic(auto, using(crate::proofs::Answered::focus_answers, crate::proofs::Answered::nowhere_answers))]
fn walk_in(alloc: Global, env: &Env, e: &Expr) -> Result<Option<Seq>, AllocError>
    ensures { IfOk result (λ found. AnswersWalk found e.now (env_of env.now)) }
{
    match env.focus {
        Focus::Absent => Ok(None),
        Focus::At { item, .. } => walk_at_item(alloc, e, item),
    }
}

fn walk_there(alloc: Global, env: &Env, e: &Expr) -> Result<Seq, AllocError>
    requires { has_walk (way_of e.now (env_of env.now).focus) ≡ true }
    ensures { IfOk result (λ seq. IsValue seq e.now (env_of env.now)) }
{
    match walk_in(alloc, env, e)? {
        Some(items) => Ok(items),
        None => unreachable!(),
    }
}

/// The value of an expression that one walk answers, as a sequence of which nothing is walked yet
/// (XPath 2.0, 2.3.1 and 3.2). There is no error, and no tree is made.
#[inline(never)]
pub fn late_walk(alloc: Global, env: &Env, e: &Expr) -> Result<Seq, EvalFault>
    requires { has_walk (way_of e.now (env_of env.now).focus) ≡ true }
    ensures { (program : Program) (k : ℕ) → AnswersLate result k
        (outcome program e.now (env_of env.now) k) }
{
    Ok(walk_there(alloc, env, e)?)
}

/// The same as a list. Of all nodes along the axis only those of the value are made items.
#[inline(never)]
pub fn late_walk_list(alloc: Global, env: &Env, e: &Expr) -> Result<ItemList, EvalFault>
    requires { has_walk (way_of e.now (env_of env.now).focus) ≡ true }
    ensures { (program : Program) (k : ℕ) → Answers result k
        (outcome program e.now (env_of env.now) k) }
{
    let items = walk_there(alloc, env, e)?;
    Ok(items.to_list(alloc)?)
}

/// What a predicate that is an integer keeps of it: the item at that position, which counts from 1
/// (XPath 2.0, 3.3.2). No node after it is looked for.
#[inline(never)]
pub fn late_walk_place(
    alloc: Global,
    env: &Env,
    e: &Expr,
    place: i64,
) -> Result<ItemList, EvalFault>
    requires { has_walk (way_of e.now (env_of env.now).focus) ≡ true }
    ensures { (program : Program) (k : ℕ) → Answers result k
        (and_then (outcome program e.now (env_of env.now) k) (kept (literal place) (env_of env.now))) }
{
    let items = walk_there(alloc, env, e)?;
    Ok(late_place(alloc, items, place)?)
}

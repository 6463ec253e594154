// One step of a pattern, without what comes before it.
ghost use Rattle.std.specs.Prelude.{◌≡◌, IfOk, true, ◌∷◌, [], map};
ghost use Rattle.std.specs.List.{list_all, list_any};
ghost use Rattle.node_tests.specs.Tests.{passes_at};
ghost use Rattle.node_axes.specs.StepWalks.Nodes.{kept_by_all};
ghost use Rattle.quiet_meaning.specs.Quietly.{quietly_of, holds_at};
ghost use Rattle.quiet_eval.specs.QuietPlaces.Free.{focus, is_place_free_expr};
ghost use Rattle.quiet_meaning.specs.Paths.{keeps, are_allowed};
ghost use Rattle.match_patterns.specs.Patterns.{is_child_kind, is_attribute_kind, is_document_kind, kind_at, is_parentless, is_root_document, is_same, stands_for, candidates, step_matches, has_allowed};
ghost use Rattle.node_axes.specs.Axes.{same_path, same_attribute};

use node_tests::node_passes;
use quiet_eval::quiet_places::is_place_free;
use quiet_eval::{hits, holds, kept_in_turn};
use std::alloc::{AllocError, Global};
use xt_syntax::{Expr, PatternStep};
use xt_tree::{Kind, Node};
use xt_types::Axis;

/// Whether the step matches the node, whatever comes before the step.
#[tactic(auto, unfolding(crate::specs::Patterns::step_matches))]
pub(crate) fn step_matches(
    alloc: Global,
    step: &PatternStep,
    node: &Node,
) -> Result<bool, AllocError>
    requires { has_allowed step.now ≡ true }
    ensures { IfOk result (λ truth. truth ≡ step_matches step.now node.now) }
{
    if !stands_for(step.axis, node) || !node_passes(&step.test, step.axis, node) {
        return Ok(false);
    }
    is_kept(alloc, step, node)
}

/// Whether the predicates keep the node among those beside it. Where none of them looks at positions, they are not looked for.
fn is_kept(alloc: Global, step: &PatternStep, node: &Node) -> Result<bool, AllocError>
    requires quiet { has_allowed step.now ≡ true }
    requires stands { stands_for step.now.axis node.now ≡ true }
    requires passes { passes_at step.now.axis step.now.test node.now ≡ true }
    ensures { IfOk result (λ truth. truth ≡ list_any (is_same node.now) (kept_by_all (keeps step.now.quiet) (candidates step.now node.now))) }
{
    if are_place_free(step.quiet.as_slice()) {
        return all_hold(alloc, step.quiet.as_slice(), node);
    }
    is_kept_among(alloc, step, node)
}

fn are_place_free(tests: &[Expr]) -> bool
    ensures { result ≡ list_all is_place_free_expr tests.now }
{
    tests.iter().all(|e| is_place_free(e))
}

/// Whether all predicates hold for the node as one of one.
fn all_hold(alloc: Global, tests: &[Expr], node: &Node) -> Result<bool, AllocError>
    requires { are_allowed tests.now ≡ true }
    ensures { IfOk result (λ truth. truth ≡ list_all (λ q. holds_at q (focus node.now 1 1)) (map quietly_of tests.now)) }
{
    for test in tests {
        if !holds(alloc, test, node, 1, 1)? {
            return Ok(false);
        }
    }
    Ok(true)
}

fn is_kept_among(alloc: Global, step: &PatternStep, node: &Node) -> Result<bool, AllocError>
    requires quiet { has_allowed step.now ≡ true }
    ensures { IfOk result (λ truth. truth ≡ list_any (is_same node.now) (kept_by_all (keeps step.now.quiet) (candidates step.now node.now))) }
{
    let nodes = candidates(alloc, step, node)?;
    let kept = kept_in_turn(alloc, step.quiet.as_slice(), nodes)?;
    Ok(has_node(kept.as_slice(), node))
}

/// The nodes among which positions count.
fn candidates(alloc: Global, step: &PatternStep, node: &Node) -> Result<Vec<Node>, AllocError>
    ensures { IfOk result (λ nodes. nodes.items ≡ candidates step.now node.now) }
{
    match node.parent()? {
        Some(parent) => hits(alloc, step.axis, &step.test, &parent),
        None => alone(alloc, node),
    }
}

fn alone(alloc: Global, node: &Node) -> Result<Vec<Node>, AllocError>
    ensures { IfOk result (λ nodes. nodes.items ≡ node.now ∷ []) }
{
    let mut nodes = Vec::new(alloc);
    nodes.push(node.copy()?)?;
    Ok(nodes)
}

/// Whether the node is among these, which are of its tree.
fn has_node(nodes: &[Node], node: &Node) -> bool
    ensures { result ≡ list_any (is_same node.now) nodes.now }
{
    for other in nodes {
        if is_same(node, other) {
            return true;
        }
    }
    false
}

#[tactic(auto, unfolding(node_axes::specs::Axes::is_itself))]
fn is_same(node: &Node, other: &Node) -> bool
    ensures { result ≡ is_same node.now other.now }
{
    same_path(other.path(), node.path())
        && same_attribute(other.attribute_place(), node.attribute_place())
}

#[tactic(auto, unfolding(node_axes::specs::Axes::same_attribute))]
fn same_attribute(a: Option<usize>, b: Option<usize>) -> bool
    ensures { result ≡ same_attribute a b }
{
    match a {
        None => b.is_none(),
        Some(i) => match b {
            None => false,
            Some(j) => i == j,
        },
    }
}

fn same_path(a: &[usize], b: &[usize]) -> bool
    ensures { result ≡ same_path a.now b.now }
{
    a == b
}

/// Whether the step is for such nodes.
#[tactic(auto, unfolding(crate::specs::Patterns::stands_for))]
fn stands_for(axis: Axis, node: &Node) -> bool
    ensures { result ≡ stands_for axis node.now }
{
    match axis {
        Axis::Child => is_child(node),
        Axis::Attribute => {
            node.attribute_place().is_some() || (is_parentless(node) && is_attribute(node))
        }
        _ => false,
    }
}

#[tactic(auto, unfolding(crate::specs::Patterns::is_child_kind))]
fn is_child(node: &Node) -> bool
    ensures { result ≡ is_child_kind (kind_at node.now) }
{
    match node.kind() {
        Kind::Doc => false,
        Kind::Attr => false,
        Kind::Elem => true,
        Kind::Text => true,
        Kind::Comment => true,
        Kind::Pi => true,
    }
}

#[tactic(auto, unfolding(crate::specs::Patterns::is_attribute_kind))]
fn is_attribute(node: &Node) -> bool
    ensures { result ≡ is_attribute_kind (kind_at node.now) }
{
    matches!(node.kind(), Kind::Attr)
}

#[tactic(auto, unfolding(crate::specs::Patterns::is_document_kind))]
fn is_document(node: &Node) -> bool
    ensures { result ≡ is_document_kind (kind_at node.now) }
{
    matches!(node.kind(), Kind::Doc)
}

fn is_parentless(node: &Node) -> bool
    ensures { result ≡ is_parentless node.now }
{
    node.attribute_place().is_none() && node.path().is_empty()
}

/// Whether the node is a document, and the root of its tree.
pub(crate) fn is_root_document(node: &Node) -> bool
    ensures { result ≡ is_root_document node.now }
{
    is_parentless(node) && is_document(node)
}

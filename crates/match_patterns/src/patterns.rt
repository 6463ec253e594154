// The steps of a pattern, from the last to the first.
//
// Before `//` a node above is looked for at which the steps from there to the `//` before them
// match, the nearest first. Where these match and what comes before them does not, the nodes
// further above need not be tried: each of them has fewer nodes above it. So each `//` goes up
// once, however many there are.
ghost use Rattle.std.specs.Prelude.{◌≡◌, ◌≤◌, ◌&&◌, IfOk, Some, true, false, length, reverse, take};
ghost use Rattle.std.specs.List.{list_any};
ghost use Rattle.xt_tree.specs.Place.{above_place, has_place};
ghost use Rattle.match_patterns.specs.Findings.{Tells, count_above, finding_of};
ghost use Rattle.match_patterns.specs.Patterns.{above, are_allowed_steps, is_led};
ghost use Rattle.match_patterns.specs.Patterns.{is_root_document, pattern_matches, steps_match};

use crate::findings::{Finding, finding_of, is_here};
use crate::steps::{is_root_document, step_matches};
use std::alloc::{AllocError, Global};
use xt_syntax::{Pattern, PatternStep};
use xt_tree::Node;

/// Whether the pattern matches the node (XSLT 2.0, 5.5.3). It is for patterns of the predicates
/// that patterns may have.
pub fn matches(alloc: Global, pattern: &Pattern, node: &Node) -> Result<bool, AllocError>
    requires { are_allowed_steps pattern.now.steps ≡ true }
    ensures { IfOk result (λ truth. truth ≡ pattern_matches pattern.now node.now) }
{
    let steps = pattern.steps.as_slice();
    let finding = first_match(alloc, pattern.rooted, steps, steps.len(), node)?;
    Ok(is_here(finding))
}

/// Whether so many of the steps, with all before them, match the node.
#[cycle(matches)]
fn first_match(
    alloc: Global,
    rooted: bool,
    steps: &[PatternStep],
    count: usize,
    node: &Node,
) -> Result<Finding, AllocError>
    requires quiet { are_allowed_steps steps.now ≡ true }
    requires within { count ≤ length steps.now }
    ensures { IfOk result (λ finding. Tells finding
        (steps_match rooted (reverse (take count steps.now))) node.now) }
{
    if count == 0 {
        return Ok(match_root(rooted, node));
    }
    let step = &steps[count - 1];
    if !step_matches(alloc, step, node)? {
        return Ok(Finding::NotHere);
    }
    is_led(alloc, rooted, step.deep, steps, count - 1, node)
}

/// Whether the node is the document before the first step of a pattern with `/` or `//` at its
/// front.
fn match_root(rooted: bool, node: &Node) -> Finding
    ensures { result ≡ finding_of (rooted && is_root_document node.now) }
{
    finding_of(rooted && is_root_document(node))
}

/// Whether what comes before a step matches above the node that the step matches.
#[cycle(matches)]
fn is_led(
    alloc: Global,
    rooted: bool,
    deep: bool,
    steps: &[PatternStep],
    count: usize,
    node: &Node,
) -> Result<Finding, AllocError>
    requires quiet { are_allowed_steps steps.now ≡ true }
    requires within { count ≤ length steps.now }
    ensures { IfOk result (λ finding. Tells finding
        (is_led rooted deep (reverse (take count steps.now))) node.now) }
{
    if !rooted && count == 0 {
        return Ok(Finding::Here);
    }
    if deep {
        match_above(alloc, rooted, steps, count, node)
    } else {
        match_parent(alloc, rooted, steps, count, node)
    }
}

/// Whether the steps match the parent.
#[cycle(matches)]
fn match_parent(
    alloc: Global,
    rooted: bool,
    steps: &[PatternStep],
    count: usize,
    node: &Node,
) -> Result<Finding, AllocError>
    requires quiet { are_allowed_steps steps.now ≡ true }
    requires within { count ≤ length steps.now }
    ensures { IfOk result (λ finding. Tells finding
        (λ n. list_any (steps_match rooted (reverse (take count steps.now))) (above false n))
        node.now) }
{
    match node.parent()? {
        Some(parent) => first_match(alloc, rooted, steps, count, &parent),
        None => Ok(Finding::NotHere),
    }
}

/// Whether the steps match some node above.
#[cycle(matches)]
fn match_above(
    alloc: Global,
    rooted: bool,
    steps: &[PatternStep],
    count: usize,
    node: &Node,
) -> Result<Finding, AllocError>
    requires quiet { are_allowed_steps steps.now ≡ true }
    requires within { count ≤ length steps.now }
    ensures { IfOk result (λ finding. Tells finding
        (λ n. list_any (steps_match rooted (reverse (take count steps.now))) (above true n))
        node.now) }
{
    let mut depth = count_above(node);
    while depth > 0 {
        depth -= 1;
        match match_ancestor(alloc, rooted, steps, count, node, depth)? {
            Finding::Here => return Ok(Finding::Here),
            Finding::NotAbove => return Ok(Finding::NotAbove),
            Finding::NotHere => {}
        }
    }
    Ok(Finding::NotAbove)
}

/// Whether the steps match the node above that so many steps from the root lead to.
#[cycle(matches)]
fn match_ancestor(
    alloc: Global,
    rooted: bool,
    steps: &[PatternStep],
    count: usize,
    node: &Node,
    depth: usize,
) -> Result<Finding, AllocError>
    requires quiet { are_allowed_steps steps.now ≡ true }
    requires within { count ≤ length steps.now }
    requires depth { depth ≤ length node.now.path }
    ensures { IfOk result (λ finding. Tells finding
        (steps_match rooted (reverse (take count steps.now))) (above_place node.now depth)) }
{
    match ancestor(alloc, node, depth)? {
        Some(above) => first_match(alloc, rooted, steps, count, &above),
        None => Ok(Finding::NotHere),
    }
}

/// The node above that so many steps from the root lead to.
fn ancestor(alloc: Global, node: &Node, depth: usize) -> Result<Option<Node>, AllocError>
    requires { depth ≤ length node.now.path }
    ensures { IfOk result (λ above. above ≡ Some (above_place node.now depth)) }
{
    let _kind = node.kind();
    let tree = node.tree().copy()?;
    let above = Node::at_place(alloc, node.number(), tree, &node.path()[..depth], None)?;
    Ok(above)
}

/// How many nodes are above.
fn count_above(node: &Node) -> usize
    ensures count { result ≡ count_above node.now }
    ensures exists { has_place node.now ≡ true }
{
    let _kind = node.kind();
    match node.attribute_place() {
        Some(_) => node.path().len() + 1,
        None => node.path().len(),
    }
}

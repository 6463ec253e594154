// Predicates, and the paths within them: these need each other.
ghost use Rattle.std.specs.Prelude.{◌≡◌, ◌++◌, ◌∷◌, [], map, not, true, false, IfOk, OnOk, None, if◌then◌else◌};
ghost use Rattle.std.specs.List.{list_all};
ghost use Rattle.node_axes.specs.StepWalks.Nodes.{kept_by, kept_by_all, nodes_of_each};
ghost use Rattle.quiet_meaning.specs.Quietly.{quietly_of, holds_at, holds_quietly, is_pattern_form, stepped, slashed};
ghost use Rattle.quiet_meaning.specs.Paths.{is_path_form, nodes_of_form};
ghost use Rattle.quiet_eval.specs.Subjects.{negated_part, path_part, nodes_at, is_junction, decided};
ghost use Rattle.quiet_eval.specs.QuietPlaces.Free.{focus};

use crate::singles::judge;
use crate::step_hits::hits;
use crate::subjects::{negated, path_in};
use node_axes::step_walks::in_order;
use std::alloc::{AllocError, Global};
use xt_syntax::Expr;
use xt_tree::Node;
use xt_types::{Axis, Test};

/// Whether the predicate keeps the node, which is at the position, from 1, among so many. It is for predicates that
/// patterns may have; each quiet one is such a predicate.
#[cycle(holds)]
pub fn holds(
    alloc: Global,
    e: &Expr,
    node: &Node,
    position: u64,
    size: u64,
) -> Result<bool, AllocError>
    requires { is_pattern_form (quietly_of e.now) ≡ true }
    ensures { IfOk result (λ truth. truth ≡ holds_quietly e.now node.now position size) }
{
    match e {
        Expr::Or(all) => decided(alloc, true, all.get().as_slice(), node, position, size),
        Expr::And(all) => decided(alloc, false, all.get().as_slice(), node, position, size),
        _ => simple(alloc, e, node, position, size),
    }
}

/// Whether some of the predicates holds, or else whether all do: the first that holds so decides.
#[cycle(holds)]
fn decided(
    alloc: Global,
    until: bool,
    all: &[Expr],
    node: &Node,
    position: u64,
    size: u64,
) -> Result<bool, AllocError>
    requires { list_all is_pattern_form (map quietly_of all.now) ≡ true }
    ensures { IfOk result (λ truth. truth ≡ decided until (map quietly_of all.now) (focus node.now position size)) }
{
    for e in all {
        if holds(alloc, e, node, position, size)? == until {
            return Ok(until);
        }
    }
    Ok(!until)
}

#[cycle(holds)]
fn simple(
    alloc: Global,
    e: &Expr,
    node: &Node,
    position: u64,
    size: u64,
) -> Result<bool, AllocError>
    requires form { is_pattern_form (quietly_of e.now) ≡ true }
    requires junction { is_junction e.now ≡ false }
    ensures { IfOk result (λ truth. truth ≡ holds_quietly e.now node.now position size) }
{
    match negated(e) {
        Some(inner) => opposite(alloc, inner, node, position, size),
        None => alone(alloc, e, node, position, size),
    }
}

#[cycle(holds)]
fn opposite(
    alloc: Global,
    e: &Expr,
    node: &Node,
    position: u64,
    size: u64,
) -> Result<bool, AllocError>
    requires { is_pattern_form (quietly_of e.now) ≡ true }
    ensures { IfOk result (λ truth. truth ≡ not (holds_quietly e.now node.now position size)) }
{
    let truth = holds(alloc, e, node, position, size)?;
    Ok(!truth)
}

#[cycle(holds)]
fn alone(alloc: Global, e: &Expr, node: &Node, position: u64, size: u64) -> Result<bool, AllocError>
    requires form { is_pattern_form (quietly_of e.now) ≡ true }
    requires junction { is_junction e.now ≡ false }
    requires not { negated_part e.now ≡ None }
    ensures { IfOk result (λ truth. truth ≡ holds_quietly e.now node.now position size) }
{
    let nodes = path_nodes(alloc, e, node)?;
    let truth = judge(alloc, e, nodes.as_slice(), node, position, size)?;
    Ok(truth)
}

/// The nodes to which the path leads on which the predicate is decided.
#[cycle(holds)]
fn path_nodes(alloc: Global, e: &Expr, node: &Node) -> Result<Vec<Node>, AllocError>
    requires form { is_pattern_form (quietly_of e.now) ≡ true }
    requires junction { is_junction e.now ≡ false }
    requires not { negated_part e.now ≡ None }
    ensures { IfOk result (λ nodes. nodes.items ≡ nodes_at (path_part e.now) node.now) }
{
    match path_in(e) {
        Some(path) => reached(alloc, path, node),
        None => Ok(Vec::new(alloc)),
    }
}

/// The nodes to which the path leads, each once and in document order (XPath 2.0, 3.2).
#[cycle(holds)]
fn reached(alloc: Global, path: &Expr, node: &Node) -> Result<Vec<Node>, AllocError>
    requires { is_path_form (quietly_of path.now) ≡ true }
    ensures { IfOk result (λ nodes. nodes.items ≡ nodes_of_form (quietly_of path.now) node.now) }
{
    match path {
        Expr::Slash(a, b) => reached_by_steps(alloc, a.get(), b.get(), node),
        Expr::Step(axis, test, tests) => reached_by_step(
            alloc,
            *axis,
            test,
            tests.get().as_slice(),
            node,
        ),
        _ => Ok(Vec::new(alloc)),
    }
}

#[cycle(holds)]
fn reached_by_steps(alloc: Global, a: &Expr, b: &Expr, node: &Node) -> Result<Vec<Node>, AllocError>
    requires { is_path_form (slashed (quietly_of a.now) (quietly_of b.now)) ≡ true }
    ensures { IfOk result (λ nodes. nodes.items ≡ nodes_of_form (slashed (quietly_of a.now) (quietly_of b.now)) node.now) }
{
    let from = reached(alloc, a, node)?;
    let found = from_each(alloc, b, from.as_slice())?;
    in_order(found)
}

/// The nodes to which the step leads from each of the nodes.
#[cycle(holds)]
fn from_each(alloc: Global, step: &Expr, nodes: &[Node]) -> Result<Vec<Node>, AllocError>
    requires { is_path_form (quietly_of step.now) ≡ true }
    ensures { IfOk result (λ found. found.items ≡ nodes_of_each (nodes_of_form (quietly_of step.now)) nodes.now) }
{
    let mut found = Vec::new(alloc);
    for node in nodes {
        add_reached(alloc, step, node, &mut found)?;
    }
    Ok(found)
}

#[cycle(holds)]
fn add_reached(
    alloc: Global,
    step: &Expr,
    node: &Node,
    found: &mut Vec<Node>,
) -> Result<(), AllocError>
    requires { is_path_form (quietly_of step.now) ≡ true }
    ensures { OnOk result (found.new.items ≡ found.old.items ++ nodes_of_form (quietly_of step.now) node.now) }
{
    let mut more = reached(alloc, step, node)?;
    found.append(&mut more)?;
    Ok(())
}

#[cycle(holds)]
fn reached_by_step(
    alloc: Global,
    axis: Axis,
    test: &Test,
    tests: &[Expr],
    node: &Node,
) -> Result<Vec<Node>, AllocError>
    requires { is_path_form (stepped axis test.now (map quietly_of tests.now)) ≡ true }
    ensures { IfOk result (λ nodes. nodes.items ≡ nodes_of_form (stepped axis test.now (map quietly_of tests.now)) node.now) }
{
    let found = hits(alloc, axis, test, node)?;
    let kept = kept_in_turn(alloc, tests, found)?;
    in_order(kept)
}

/// Those of the nodes that the predicates keep in turn, each of which counts positions among those that it gets (XPath 2.0,
/// 3.2.2).
#[cycle(holds)]
pub fn kept_in_turn(
    alloc: Global,
    tests: &[Expr],
    nodes: Vec<Node>,
) -> Result<Vec<Node>, AllocError>
    requires { list_all is_pattern_form (map quietly_of tests.now) ≡ true }
    ensures { IfOk result (λ kept. kept.items ≡ kept_by_all (map holds_at (map quietly_of tests.now)) nodes.items) }
{
    let mut nodes = nodes;
    for test in tests {
        nodes = kept_by(alloc, test, nodes.as_slice())?;
    }
    Ok(nodes)
}

/// Those of the nodes that the predicate keeps.
#[cycle(holds)]
fn kept_by(alloc: Global, test: &Expr, nodes: &[Node]) -> Result<Vec<Node>, AllocError>
    requires { is_pattern_form (quietly_of test.now) ≡ true }
    ensures { IfOk result (λ kept. kept.items ≡ kept_by (holds_at (quietly_of test.now)) nodes.now) }
{
    let mut kept = Vec::new(alloc);
    let size = nodes.len() as u64;
    let mut position: u64 = 0;
    for node in nodes {
        position += 1;
        let keeps = holds(alloc, test, node, position, size)?;
        add_if(keeps, node, &mut kept)?;
    }
    Ok(kept)
}

/// Puts the node to the end of the list if it is kept.
fn add_if(keeps: bool, node: &Node, kept: &mut Vec<Node>) -> Result<(), AllocError>
    ensures { OnOk result (kept.new.items ≡ (if keeps then kept.old.items ++ node.now ∷ [] else kept.old.items)) }
{
    if !keeps {
        return Ok(());
    }
    kept.push(node.copy()?)?;
    Ok(())
}

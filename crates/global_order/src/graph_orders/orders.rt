// The order, and what it is by.
ghost use Rattle.std.specs.Prelude.{◌≡◌, ◌++◌, IfOk, OnOk, IfSome};
ghost use Rattle.global_order.specs.Order.{order_of};
ghost use Rattle.global_order.specs.GraphOrders.Needs.{target, targets, needs_of, needs_from};

use crate::graph_orders::checks::{Guess, is_told};
use crate::graph_orders::guesses::guess;
use crate::order;
use crate::reached_places::reached;
use std::alloc::{AllocError, Global};
use xt_names::List;

fn push_target(found: &mut List<usize>, at: usize, place: usize) -> Result<(), AllocError>
    ensures { OnOk result (found.new ≡ found.old ++ target at place) }
{
    if place < at {
        Ok(())
    } else {
        found.push(place - at)
    }
}

fn targets(alloc: Global, at: usize, places: &[usize]) -> Result<List<usize>, AllocError>
    ensures { IfOk result (λ found. found ≡ targets at places.now) }
{
    let mut found = List::new(alloc);
    for place in places {
        push_target(&mut found, at, *place)?;
    }
    Ok(found)
}

fn needs_of(
    alloc: Global,
    graph: &[List<usize>],
    at: usize,
    place: usize,
) -> Result<List<usize>, AllocError>
    ensures { IfOk result (λ found. found ≡ needs_of graph.now at place) }
{
    let places = reached(alloc, graph, place)?;
    targets(alloc, at, places.as_slice())
}

/// For each of so many first places of the graph the numbers of those that it reaches among the
/// places from `at` on, each once.
pub fn needs_by(
    alloc: Global,
    graph: &[List<usize>],
    at: usize,
    count: usize,
) -> Result<List<List<usize>>, AllocError>
    ensures { IfOk result (λ all. all ≡ needs_from count 0 graph.now at) }
{
    let mut all = List::new(alloc);
    for place in 0..count {
        all.push(needs_of(alloc, graph, at, place)?)?;
    }
    Ok(all)
}

/// The order of what each needs, where that is guessed.
#[tactic(auto, using(crate::proofs::GraphOrders::RightOrders::order_is))]
fn guessed(
    alloc: Global,
    graph: &[List<usize>],
    at: usize,
    count: usize,
) -> Result<Option<List<usize>>, AllocError>
    ensures { IfOk result (λ found. IfSome found
        (λ all. all ≡ order_of (needs_from count 0 graph.now at))) }
{
    let Guess {
        order,
        places,
        latest,
        steps,
    } = guess(alloc, graph, at, count)?;
    let told = is_told(
        alloc,
        graph,
        at,
        count,
        order.as_slice(),
        places.as_slice(),
        latest.as_slice(),
        steps.as_slice(),
    )?;
    if told {
        return Ok(Some(List::of_vec(order)));
    }
    Ok(None)
}

/// The order in which so many first places of the graph stand, each after those that it reaches
/// among the places from `at` on, as `order` gives it of what `needs_by` tells (XSLT 2.0, 9.5).
pub fn order_by(
    alloc: Global,
    graph: &[List<usize>],
    at: usize,
    count: usize,
) -> Result<List<usize>, AllocError>
    ensures { IfOk result (λ all. all ≡ order_of (needs_from count 0 graph.now at)) }
{
    match guessed(alloc, graph, at, count)? {
        Some(all) => Ok(all),
        None => {
            let needs = needs_by(alloc, graph, at, count)?;
            order(alloc, needs.as_slice())
        }
    }
}

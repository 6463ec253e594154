// Whether places stand in order.
ghost use Rattle.std.specs.Prelude.{◌≡◌, IfOk};
ghost use Rattle.global_order.specs.GraphOrders.Needs.{needs_from};
ghost use Rattle.global_order.specs.GraphOrders.Behind.{are_behind, are_in_place, is_whole_order};

use crate::graph_orders::orders::order_by;
use std::alloc::{AllocError, Global};
use xt_names::List;

fn are_in_place(numbers: &[usize]) -> bool
    ensures { result ≡ are_in_place 0 numbers.now }
{
    for place in 0..numbers.len() {
        if numbers[place] != place {
            return false;
        }
    }
    true
}

/// Whether these are so many numbers, each of which is its place.
#[tactic(auto, unfolding(crate::specs::GraphOrders::Behind::is_whole_order))]
fn is_whole_order(count: usize, numbers: &[usize]) -> bool
    ensures { result ≡ is_whole_order count numbers.now }
{
    numbers.len() == count && are_in_place(numbers)
}

/// Whether each of so many first places of the graph comes after those that it reaches among the
/// places from `at` on: then the order that `order_by` gives is that in which they stand (XSLT 2.0,
/// 9.5).
pub fn are_behind_by(
    alloc: Global,
    graph: &[List<usize>],
    at: usize,
    count: usize,
) -> Result<bool, AllocError>
    ensures { IfOk result (λ behind. behind ≡ are_behind 0 (needs_from count 0 graph.now at)) }
{
    let order = order_by(alloc, graph, at, count)?;
    let whole = is_whole_order(count, order.as_slice());
    Ok(whole)
}

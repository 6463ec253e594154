// Tests that only the right order passes.
ghost use Rattle.std.specs.Prelude.{◌≡◌, ◌<◌, ◌≤◌, ◌+◌, ◌^◌, ℕ, IfOk, IsTrue, length};
ghost use Rattle.global_order.specs.ReachedPlaces.Walks.{led_to};
ghost use Rattle.global_order.specs.GraphOrders.Checks.{at_in, all_from, is_placed, has_place, is_after, is_end};
ghost use Rattle.global_order.specs.GraphOrders.Checks.{is_no_later, leads_no_later, is_on_the_way};
ghost use Rattle.global_order.specs.GraphOrders.Checks.{leads_on, leads_to_latest, is_in_time, AreBelow, Begins};
ghost use Rattle.global_order.specs.GraphOrders.Checks.{is_in_order, is_latest, AreLeast, IsTold};

use std::alloc::{AllocError, Global};
use xt_names::List;

/// What is guessed of an order.
#[derive(Drop)]
pub(crate) struct Guess {
    pub(crate) order: Vec<usize>,
    /// For each that is put in order, its place there, and for each other one the end of the order.
    pub(crate) places: Vec<usize>,
    /// For each place of the graph, the place in the order of the last that it reaches, from 1.
    pub(crate) latest: Vec<usize>,
    /// For each place of the graph, how many steps it is to that one.
    pub(crate) steps: Vec<usize>,
}

/// The number that is there, or 0.
pub(crate) fn at_in(numbers: &[usize], place: usize) -> usize
    ensures { result ≡ at_in numbers.now place }
{
    if place < numbers.len() {
        numbers[place]
    } else {
        0
    }
}

fn is_placed(count: usize, order: &[usize], places: &[usize], place: usize) -> bool
    ensures { result ≡ is_placed count order.now places.now place }
{
    let one = at_in(order, place);
    one < count && at_in(places, one) == place
}

fn all_placed(count: usize, order: &[usize], places: &[usize]) -> bool
    ensures { result ≡ all_from (length order.now) 0 (is_placed count order.now places.now) }
{
    for place in 0..order.len() {
        if !is_placed(count, order, places, place) {
            return false;
        }
    }
    true
}

fn has_place(most: usize, places: &[usize], order: &[usize], one: usize) -> bool
    ensures { result ≡ has_place most places.now order.now one }
{
    let place = at_in(places, one);
    !(place < most) || at_in(order, place) == one
}

fn all_have_place(count: usize, places: &[usize], order: &[usize]) -> bool
    ensures { result ≡ all_from count 0 (has_place (length order.now) places.now order.now) }
{
    for one in 0..count {
        if !has_place(order.len(), places, order, one) {
            return false;
        }
    }
    true
}

fn is_after(place: usize, late: usize) -> bool
    ensures { result ≡ is_after place late }
{
    late > 0 && late - 1 == place
}

fn is_end(at: usize, places: &[usize], latest: &[usize], one: usize) -> bool
    requires { at + one < 2 ^ 64 }
    ensures { result ≡ is_end at places.now latest.now one }
{
    is_after(at_in(places, one), at_in(latest, at + one))
}

fn all_end(at: usize, count: usize, places: &[usize], latest: &[usize]) -> bool
    requires { at + count < 2 ^ 64 }
    ensures { result ≡ all_from count 0 (is_end at places.now latest.now) }
{
    for one in 0..count {
        if !is_end(at, places, latest, one) {
            return false;
        }
    }
    true
}

fn is_no_later(latest: &[usize], place: usize, to: usize) -> bool
    ensures { result ≡ is_no_later latest.now place to }
{
    !(at_in(latest, place) < at_in(latest, to))
}

pub(crate) fn row(graph: &[List<usize>], place: usize) -> &[usize]
    ensures { result.now ≡ led_to graph.now place }
{
    if place < graph.len() {
        graph[place].as_slice()
    } else {
        &[]
    }
}

fn leads_no_later(graph: &[List<usize>], latest: &[usize], place: usize) -> bool
    ensures { result ≡ leads_no_later graph.now latest.now place }
{
    row(graph, place)
        .iter()
        .all(|to| is_no_later(latest, place, *to))
}

fn all_lead_no_later(graph: &[List<usize>], latest: &[usize]) -> bool
    ensures { result ≡ all_from (length graph.now) 0 (leads_no_later graph.now latest.now) }
{
    for place in 0..graph.len() {
        if !leads_no_later(graph, latest, place) {
            return false;
        }
    }
    true
}

fn is_on_the_way(latest: &[usize], steps: &[usize], place: usize, to: usize) -> bool
    ensures { result ≡ is_on_the_way latest.now steps.now place to }
{
    at_in(latest, to) == at_in(latest, place) && at_in(steps, to) < at_in(steps, place)
}

fn leads_on(graph: &[List<usize>], latest: &[usize], steps: &[usize], place: usize) -> bool
    ensures { result ≡ leads_on graph.now latest.now steps.now place }
{
    row(graph, place)
        .iter()
        .any(|to| is_on_the_way(latest, steps, place, *to))
}

fn leads_to_latest(graph: &[List<usize>], latest: &[usize], steps: &[usize], place: usize) -> bool
    ensures { result ≡ leads_to_latest graph.now latest.now steps.now place }
{
    at_in(latest, place) == 0 || leads_on(graph, latest, steps, place)
}

fn all_lead_to_latest(graph: &[List<usize>], at: usize, latest: &[usize], steps: &[usize]) -> bool
    ensures { result ≡ all_from at 0 (leads_to_latest graph.now latest.now steps.now) }
{
    for place in 0..at {
        if !leads_to_latest(graph, latest, steps, place) {
            return false;
        }
    }
    true
}

fn is_in_time(most: usize, places: &[usize], latest: &[usize], one: usize) -> bool
    ensures { result ≡ is_in_time most places.now latest.now one }
{
    let place = at_in(places, one);
    let late = at_in(latest, one);
    if place < most {
        !(place < late)
    } else {
        most < late
    }
}

fn all_in_time(count: usize, most: usize, places: &[usize], latest: &[usize]) -> bool
    ensures { result ≡ all_from count 0 (is_in_time most places.now latest.now) }
{
    for one in 0..count {
        if !is_in_time(most, places, latest, one) {
            return false;
        }
    }
    true
}

/// Where those that are below the one at this place begin, or before `low`: it goes back from
/// stretch to stretch.
fn begin_of(order: &[usize], begins: &[usize], low: usize, place: usize) -> usize
    requires { Begins order.now begins.now place }
    ensures back { result ≤ place }
    ensures below { AreBelow order.now result place }
{
    let mut begin = place;
    while begin > low && at_in(order, begin - 1) < at_in(order, place) {
        begin = at_in(begins, begin - 1);
    }
    begin
}

/// Whether none comes after a greater one that could have stood there.
fn are_least(alloc: Global, order: &[usize], latest: &[usize]) -> Result<bool, AllocError>
    ensures { IfOk result
        (λ least. IsTrue least → AreLeast order.now latest.now (length order.now)) }
{
    let mut begins = Vec::new(alloc);
    for place in 0..order.len() {
        let low = at_in(latest, at_in(order, place));
        let begin = begin_of(order, begins.as_slice(), low, place);
        if begin > low {
            return Ok(false);
        }
        begins.push(begin)?;
    }
    Ok(true)
}

fn sizes_are(
    graph: &[List<usize>],
    at: usize,
    count: usize,
    order: &[usize],
    latest: &[usize],
) -> bool
    ensures size { IsTrue result → at + count ≡ length graph.now }
    ensures order { IsTrue result → length order.now ≤ count }
    ensures latest { IsTrue result → length latest.now ≡ length graph.now }
{
    let size = graph.len();
    at <= size && size - at == count && order.len() <= count && latest.len() == size
}

fn is_in_order(count: usize, order: &[usize], places: &[usize], latest: &[usize]) -> bool
    ensures { result ≡ is_in_order count order.now places.now latest.now }
{
    if !all_placed(count, order, places) {
        return false;
    }
    if !all_have_place(count, places, order) {
        return false;
    }
    all_in_time(count, order.len(), places, latest)
}

fn is_latest(
    graph: &[List<usize>],
    at: usize,
    count: usize,
    places: &[usize],
    latest: &[usize],
    steps: &[usize],
) -> bool
    requires { at + count < 2 ^ 64 }
    ensures { result ≡ is_latest graph.now at count places.now latest.now steps.now }
{
    if !all_end(at, count, places, latest) {
        return false;
    }
    if !all_lead_no_later(graph, latest) {
        return false;
    }
    all_lead_to_latest(graph, at, latest, steps)
}

/// Whether all tests are passed: then it is the order that `order_by` wants.
pub(crate) fn is_told(
    alloc: Global,
    graph: &[List<usize>],
    at: usize,
    count: usize,
    order: &[usize],
    places: &[usize],
    latest: &[usize],
    steps: &[usize],
) -> Result<bool, AllocError>
    ensures { IfOk result (λ told. IsTrue told
        → IsTold graph.now at count order.now places.now latest.now steps.now) }
{
    if !sizes_are(graph, at, count, order, latest) {
        return Ok(false);
    }
    if !is_in_order(count, order, places, latest) {
        return Ok(false);
    }
    if !is_latest(graph, at, count, places, latest, steps) {
        return Ok(false);
    }
    are_least(alloc, order, latest)
}

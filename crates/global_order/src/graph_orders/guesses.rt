// Guesses of the order. Nothing is promised of them: what is guessed is tested.
use crate::graph_orders::checks::{Guess, at_in, row};
use crate::graph_orders::marks::{no_rows, push_at, put, zeros};
use crate::graph_orders::parts::{backwards, parts};
use std::alloc::{AllocError, Global};
use std::collections::BinaryHeap;
use xt_names::List;

/// The parts of a graph while they are put in order. A part is free where all that it leads to is.
#[derive(Drop)]
struct Order {
    /// For each place of the graph, its part.
    of: Vec<usize>,
    /// For each part, how many steps lead from it to parts that are not free.
    open: Vec<usize>,
    /// For each part those that lead to it, step by step.
    users: Vec<List<usize>>,
    /// For each part the one of those to be put in order that it is, from 1, or 0.
    one: Vec<usize>,
    /// Parts that are free, and have not told those that lead to them.
    free: Vec<usize>,
    /// Those to be put in order that may be next, counted from the end.
    ready: BinaryHeap<usize>,
    order: Vec<usize>,
}

fn count_step(order: &mut Order, place: usize, to: usize) -> Result<(), AllocError> {
    let part = at_in(order.of.as_slice(), place);
    let other = at_in(order.of.as_slice(), to);
    if part == other {
        return Ok(());
    }
    let open = at_in(order.open.as_slice(), part);
    put(&mut order.open, part, open.saturating_add(1));
    push_at(&mut order.users, other, part)
}

fn count_steps(graph: &[List<usize>], order: &mut Order) -> Result<(), AllocError> {
    for place in 0..graph.len() {
        for to in row(graph, place) {
            count_step(order, place, *to)?;
        }
    }
    Ok(())
}

/// The parts, of which nothing is free.
fn begin(
    alloc: Global,
    graph: &[List<usize>],
    back: &[List<usize>],
    count: usize,
) -> Result<Order, AllocError> {
    let parts_at = graph.len().saturating_add(1);
    let mut order = Order {
        of: parts(alloc, graph, back)?,
        open: zeros(alloc, parts_at)?,
        users: no_rows(alloc, parts_at)?,
        one: zeros(alloc, parts_at)?,
        free: Vec::new(alloc),
        ready: BinaryHeap::new(alloc),
        order: Vec::new(alloc),
    };
    count_steps(graph, &mut order)?;
    for one in 0..count {
        let part = at_in(order.of.as_slice(), one);
        put(&mut order.one, part, one.saturating_add(1));
    }
    Ok(order)
}

/// One step less leads from the part to parts that are not free.
fn close(order: &mut Order, part: usize) -> Result<(), AllocError> {
    let open = at_in(order.open.as_slice(), part);
    put(&mut order.open, part, open.saturating_sub(1));
    if open == 1 {
        order.free.push(part)?;
    }
    Ok(())
}

/// What leads to the part may be free too.
fn tell(order: &mut Order, part: usize) -> Result<(), AllocError> {
    if part < order.users.len() {
        let users = order.users[part].len();
        for user in 0..users {
            let other = at_in(row(order.users.as_slice(), part), user);
            close(order, other)?;
        }
    }
    Ok(())
}

fn set_free(order: &mut Order, size: usize, part: usize) -> Result<(), AllocError> {
    let one = at_in(order.one.as_slice(), part);
    if one > 0 {
        order.ready.push(size.saturating_sub(one))?;
        Ok(())
    } else {
        tell(order, part)
    }
}

/// Sets a part free, or else puts the first in order that may be next.
fn turn(order: &mut Order, at: usize, size: usize) -> Result<(), AllocError> {
    match order.free.pop() {
        Some(part) => set_free(order, size, part),
        None => match order.ready.pop() {
            Some(key) => {
                let one = size.saturating_sub(key).saturating_sub(1);
                order.order.push(one)?;
                let part = at_in(order.of.as_slice(), at.saturating_add(one));
                tell(order, part)
            }
            None => Ok(()),
        },
    }
}

/// The parts that lead to nothing are free, but for those that stand for what is put in order.
fn begin_free(order: &mut Order, at: usize, size: usize) -> Result<(), AllocError> {
    for place in 0..at.min(size) {
        let part = at_in(order.of.as_slice(), place);
        if at_in(order.open.as_slice(), part) == 0 {
            put(&mut order.open, part, usize::MAX);
            order.free.push(part)?;
        }
    }
    Ok(())
}

fn ordered(
    alloc: Global,
    graph: &[List<usize>],
    back: &[List<usize>],
    at: usize,
    count: usize,
) -> Result<Vec<usize>, AllocError> {
    let size = graph.len();
    let mut order = begin(alloc, graph, back, count)?;
    begin_free(&mut order, at, size)?;
    for turns in 0..size.saturating_mul(2) {
        turn(&mut order, at, size)?;
    }
    let Order { order, .. } = order;
    Ok(order)
}

/// What is reached last, found by walks backwards from those that are left out of the order, and
/// then from the last in the order to the first.
#[derive(Drop)]
struct Back {
    latest: Vec<usize>,
    steps: Vec<usize>,
    found: Vec<usize>,
    /// How many of those that are found were looked at.
    looked: usize,
    /// How many in the order are left.
    left: usize,
}

fn lead_back(state: &mut Back, place: usize, from: usize) -> Result<(), AllocError> {
    if at_in(state.latest.as_slice(), from) == 0 {
        let late = at_in(state.latest.as_slice(), place);
        let steps = at_in(state.steps.as_slice(), place);
        put(&mut state.latest, from, late);
        put(&mut state.steps, from, steps.saturating_add(1));
        state.found.push(from)?;
    }
    Ok(())
}

fn look_back(state: &mut Back, back: &[List<usize>], place: usize) -> Result<(), AllocError> {
    for from in row(back, place) {
        lead_back(state, place, *from)?;
    }
    Ok(())
}

/// Looks at one place, or else begins with the one before in the order.
fn turn_back(
    state: &mut Back,
    back: &[List<usize>],
    at: usize,
    order: &[usize],
) -> Result<(), AllocError> {
    if state.looked < state.found.len() {
        let place = at_in(state.found.as_slice(), state.looked);
        state.looked = state.looked.saturating_add(1);
        return look_back(state, back, place);
    }
    if state.left > 0 {
        let place = at.saturating_add(at_in(order, state.left - 1));
        put(&mut state.latest, place, state.left);
        state.left -= 1;
        state.found.push(place)?;
    }
    Ok(())
}

/// Begins with those that are left out of the order: whatever reaches them is left out too.
fn begin_back(
    state: &mut Back,
    at: usize,
    order: &[usize],
    places: &[usize],
) -> Result<(), AllocError> {
    for one in 0..places.len() {
        if at_in(places, one) >= order.len() {
            let place = at.saturating_add(one);
            put(&mut state.latest, place, order.len().saturating_add(1));
            state.found.push(place)?;
        }
    }
    Ok(())
}

fn walk_back(
    alloc: Global,
    back: &[List<usize>],
    at: usize,
    order: &[usize],
    places: &[usize],
) -> Result<Back, AllocError> {
    let size = back.len();
    let mut state = Back {
        latest: zeros(alloc, size)?,
        steps: zeros(alloc, size)?,
        found: Vec::new(alloc),
        looked: 0,
        left: order.len(),
    };
    begin_back(&mut state, at, order, places)?;
    for turns in 0..size.saturating_mul(2) {
        turn_back(&mut state, back, at, order)?;
    }
    Ok(state)
}

/// For each that is put in order, its place there, and for each other one the end of the order.
fn places(alloc: Global, count: usize, order: &[usize]) -> Result<Vec<usize>, AllocError> {
    let mut made = Vec::new(alloc);
    for turns in 0..count {
        made.push(order.len())?;
    }
    for place in 0..order.len() {
        put(&mut made, at_in(order, place), place);
    }
    Ok(made)
}

/// The order that may be the one of so many first places by what they reach from `at` on.
pub(crate) fn guess(
    alloc: Global,
    graph: &[List<usize>],
    at: usize,
    count: usize,
) -> Result<Guess, AllocError> {
    let back = backwards(alloc, graph)?;
    let order = ordered(alloc, graph, back.as_slice(), at, count)?;
    let places = places(alloc, count, order.as_slice())?;
    let Back { latest, steps, .. } = walk_back(
        alloc,
        back.as_slice(),
        at,
        order.as_slice(),
        places.as_slice(),
    )?;
    Ok(Guess {
        order,
        places,
        latest,
        steps,
    })
}

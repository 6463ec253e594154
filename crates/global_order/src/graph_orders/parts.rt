// The parts of a graph: places of which each reaches the others. They are only guessed, and nothing
// is promised of them.
use crate::graph_orders::checks::{at_in, row};
use crate::graph_orders::marks::{no_rows, push_at, put, zeros};
use std::alloc::{AllocError, Global};
use xt_names::List;

/// A walk in depth through a graph.
#[derive(Drop)]
struct Walk {
    /// The places on the way to the one that is looked at.
    way: Vec<usize>,
    /// For each place, how many of those that it leads to were looked at.
    seen: Vec<usize>,
    /// For each place, from which of the roots, from 1, it was found, or 0.
    found: Vec<usize>,
    /// The places that are done, in order.
    done: Vec<usize>,
    /// How many of the roots were begun with.
    roots: usize,
}

fn begin(alloc: Global, size: usize) -> Result<Walk, AllocError> {
    Ok(Walk {
        way: Vec::new(alloc),
        seen: zeros(alloc, size)?,
        found: zeros(alloc, size)?,
        done: Vec::new(alloc),
        roots: 0,
    })
}

fn enter(walk: &mut Walk, place: usize) -> Result<(), AllocError> {
    if place < walk.found.len() && walk.found[place] == 0 {
        walk.found[place] = walk.roots;
        walk.way.push(place)?;
    }
    Ok(())
}

/// Looks at one place that the last one on the way leads to, or goes back from it.
fn go_on(graph: &[List<usize>], walk: &mut Walk, last: usize) -> Result<(), AllocError> {
    let others = row(graph, last);
    let next = at_in(walk.seen.as_slice(), last);
    if next < others.len() {
        put(&mut walk.seen, last, next + 1);
        enter(walk, others[next])
    } else {
        let _last = walk.way.pop();
        walk.done.push(last)?;
        Ok(())
    }
}

fn turn(graph: &[List<usize>], roots: &[usize], walk: &mut Walk) -> Result<(), AllocError> {
    match walk.way.last().copied() {
        Some(last) => go_on(graph, walk, last),
        None => {
            let next = walk.roots;
            if next < roots.len() {
                walk.roots = next + 1;
                enter(walk, roots[next])
            } else {
                Ok(())
            }
        }
    }
}

/// How many turns a walk takes at most: one for each root, and for each step there and back.
fn turns(graph: &[List<usize>]) -> usize {
    let mut count = graph.len().saturating_mul(2);
    for others in graph {
        count = count.saturating_add(others.len());
    }
    count
}

fn walked(alloc: Global, graph: &[List<usize>], roots: &[usize]) -> Result<Walk, AllocError> {
    let mut walk = begin(alloc, graph.len())?;
    for count in 0..turns(graph) {
        turn(graph, roots, &mut walk)?;
    }
    Ok(walk)
}

fn all_places(alloc: Global, count: usize) -> Result<Vec<usize>, AllocError> {
    let mut made = Vec::new(alloc);
    for place in 0..count {
        made.push(place)?;
    }
    Ok(made)
}

/// The graph backwards: for each place those that lead to it.
pub(crate) fn backwards(
    alloc: Global,
    graph: &[List<usize>],
) -> Result<Vec<List<usize>>, AllocError> {
    let mut back = no_rows(alloc, graph.len())?;
    for place in 0..graph.len() {
        for to in row(graph, place) {
            push_at(&mut back, *to, place)?;
        }
    }
    Ok(back)
}

/// For each place the number of its part, from 1: a walk backwards that begins with the place that a
/// walk forwards has done last finds one part after the other.
pub(crate) fn parts(
    alloc: Global,
    graph: &[List<usize>],
    back: &[List<usize>],
) -> Result<Vec<usize>, AllocError> {
    let places = all_places(alloc, graph.len())?;
    let Walk { done, .. } = walked(alloc, graph, places.as_slice())?;
    let mut roots = done;
    roots.reverse();
    let Walk { found, .. } = walked(alloc, back, roots.as_slice())?;
    Ok(found)
}

// A walk in breadth.
ghost use Rattle.std.specs.Prelude.{◌≡◌, ◌<◌, ◌∷◌, [], length, IfOk, OnOk};
ghost use Rattle.global_order.specs.ReachedPlaces.Walks.{led_to, with_inner, with_places, reached_from, AreReached};

use crate::reached_places::found::Found;
use std::alloc::{AllocError, Global};
use xt_names::List;

/// Adds the place, if it is one of so many.
fn add_inner(size: usize, found: &mut Found, place: usize) -> Result<(), AllocError>
    ensures { OnOk result (found.new ≡ with_inner size found.old place) }
{
    if place < size {
        found.add(place)
    } else {
        Ok(())
    }
}

fn add_all(size: usize, found: &mut Found, places: &[usize]) -> Result<(), AllocError>
    ensures { OnOk result (found.new ≡ with_places size found.old places.now) }
{
    for place in places {
        add_inner(size, found, *place)?;
    }
    Ok(())
}

/// Adds those to which the place leads.
#[tactic(auto, using(crate::proofs::ReachedPlaces::WalkLemmas::adds_nothing))]
fn add_led_to(graph: &[List<usize>], found: &mut Found, place: usize) -> Result<(), AllocError>
    ensures { OnOk result
        (found.new ≡ with_places (length graph.now) found.old (led_to graph.now place)) }
{
    if place < graph.len() {
        add_all(graph.len(), found, graph[place].as_slice())
    } else {
        Ok(())
    }
}

fn walk(alloc: Global, graph: &[List<usize>], from: usize) -> Result<Found, AllocError>
    ensures { IfOk result (λ found. found ≡ reached_from graph.now from) }
{
    let mut found = Found::new(alloc);
    found.add(from)?;
    for turn in 0..graph.len() {
        match found.at(turn) {
            Some(place) => add_led_to(graph, &mut found, place)?,
            None => return Ok(found),
        }
    }
    Ok(found)
}

/// The places of the graph that are reached from this one, in the order in which a walk in breadth
/// finds them. For each place, the graph has those that it leads to; one that is no place of the graph
/// is passed over.
#[tactic(auto, using(crate::proofs::ReachedPlaces::WalkLemmas::are_reached))]
pub fn reached(alloc: Global, graph: &[List<usize>], from: usize) -> Result<Found, AllocError>
    ensures exact { IfOk result (λ found. found ≡ reached_from graph.now from) }
    ensures reached { IfOk result
        (λ found. from < length graph.now → AreReached graph.now from found) }
{
    let found = walk(alloc, graph, from)?;
    Ok(found)
}

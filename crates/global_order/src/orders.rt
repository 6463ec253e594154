// The order, by marks on what is done.
ghost use Rattle.std.specs.Prelude.{◌≡◌, ◌<◌, ◌≤◌, ◌-◌, ℕ, true, false, IfOk, None, length};
ghost use Rattle.global_order.specs.Order.{next, order_of, IsInOrder, StopsAtCircles};
ghost use Rattle.global_order.specs.Marks.{marked, are_marked, is_next_marked, next_marked_of};

use crate::waits::{Waits, all_turns};
use std::alloc::{AllocError, Global};
use xt_names::List;

/// Whether the place has a mark.
#[tactic(auto, unfolding(crate::specs::Marks::marked))]
pub(crate) fn is_marked(marks: &[bool], place: usize) -> bool
    ensures { result ≡ marked marks.now place }
{
    place < marks.len() && marks[place]
}

#[tactic(auto, unfolding(crate::specs::Marks::are_marked))]
fn are_marked(marks: &[bool], needs: &[usize]) -> bool
    ensures { result ≡ are_marked marks.now needs.now }
{
    for need in needs {
        if !is_marked(marks, *need) {
            return false;
        }
    }
    true
}

#[tactic(auto, unfolding(crate::specs::Marks::is_next_marked))]
fn is_next(graph: &[List<usize>], marks: &[bool], place: usize) -> bool
    requires { place < length graph.now }
    ensures { result ≡ is_next_marked graph.now marks.now place }
{
    !is_marked(marks, place) && are_marked(marks, graph[place].as_slice())
}

/// The first global from the place on that is not marked and whose dependences are.
#[tactic(auto, using(crate::proofs::MarkLemmas::turns))]
fn next_from(graph: &[List<usize>], marks: &[bool], from: usize) -> Option<usize>
    requires { from ≤ length graph.now }
    ensures { result ≡ next_marked_of (length graph.now - from) from graph.now marks.now }
{
    for place in from..graph.len() {
        if is_next(graph, marks, place) {
            return Some(place);
        }
    }
    None
}

/// The first place from this one on that has no mark.
fn first_open(marks: &[bool], from: usize) -> usize
    requires { from ≤ length marks.now }
    ensures within { (from ≤ result) × (result ≤ length marks.now) }
    ensures marked { (i : ℕ) → from ≤ i → i < result → marked marks.now i ≡ true }
{
    let mut place = from;
    while place < marks.len() && is_marked(marks, place) {
        place += 1;
    }
    place
}

/// So many places without a mark.
pub(crate) fn no_marks(alloc: Global, size: usize) -> Result<Vec<bool>, AllocError>
    ensures none { IfOk result (λ marks. (i : ℕ) → marked marks.items i ≡ false) }
    ensures size { IfOk result (λ marks. length marks.items ≡ size) }
{
    let mut marks = List::new(alloc);
    for turn in 0..size {
        marks.push(false)?;
    }
    Ok(marks.into_vec())
}

#[tactic(auto, using(crate::proofs::OrderLemmas::turns))]
fn steps(alloc: Global, graph: &[List<usize>]) -> Result<List<usize>, AllocError>
    ensures { IfOk result (λ o. o ≡ order_of graph.now) }
{
    let mut done = List::new(alloc);
    let mut marks = no_marks(alloc, graph.len())?;
    let mut from: usize = 0;
    for turn in 0..graph.len() {
        match next_from(graph, marks.as_slice(), from) {
            Some(place) => {
                done.push(place)?;
                marks[place] = true;
                from = first_open(marks.as_slice(), from);
            }
            None => return Ok(done),
        }
    }
    Ok(done)
}

/// What is done without a search, which is all of it where there are turns enough.
#[tactic(auto, using(crate::proofs::WaitLemmas::ended))]
fn looked_for(alloc: Global, graph: &[List<usize>]) -> Result<List<usize>, AllocError>
    ensures { IfOk result (λ o. o ≡ order_of graph.now) }
{
    let Waits { done, marks, .. } = all_turns(alloc, graph)?;
    match next_from(graph, marks.as_slice(), 0) {
        None => Ok(done),
        Some(_) => steps(alloc, graph),
    }
}

/// The order in which globals are evaluated, as places from 0: for each global, in declaration
/// order, the places of those that it depends on are given. A global that depends on itself,
/// through others or not, is left out, and so is one that depends on such a global.
/// (XSLT 2.0, 9.5; a circle is XTDE0640)
#[tactic(auto, using(crate::proofs::OrderLemmas::orders))]
pub fn order(alloc: Global, graph: &[List<usize>]) -> Result<List<usize>, AllocError>
    ensures exact { IfOk result (λ o. o ≡ order_of graph.now) }
    ensures in_order { IfOk result (IsInOrder graph.now) }
    ensures ends { IfOk result (λ o. next graph.now o ≡ None) }
    ensures circles { IfOk result (λ o. StopsAtCircles graph.now) }
{
    let done = looked_for(alloc, graph)?;
    Ok(done)
}

// The order by a heap of those that may be next; each other waits for one that is not done.
ghost use Rattle.std.specs.Prelude.{◌≡◌, ◌<◌, ◌≤◌, ◌-◌, ◌∷◌, [], ◌++◌, ℕ, true, false, IfOk, OnOk, IfNone, IfSome};
ghost use Rattle.std.specs.Prelude.{length, nat_lt, set, get_or, if◌then◌else◌};
ghost use Rattle.std.specs.BinaryHeap.{heap_items};
ghost use Rattle.global_order.specs.Order.{is_in};
ghost use Rattle.global_order.specs.Marks.{marked, are_marked};
ghost use Rattle.global_order.specs.Waits.{has, IsInHeap, Opens, IsGood, IsGoodBut, with_waiting};

use crate::orders::{is_marked, no_marks};
use std::alloc::{AllocError, Global};
use std::collections::BinaryHeap;
use xt_names::List;

/// How far the order has come.
#[derive(Drop)]
pub(crate) struct Waits {
    /// The places that are done, in order.
    pub(crate) done: List<usize>,
    /// Marks on these.
    pub(crate) marks: Vec<bool>,
    /// Those that may be next, counted from the end, so that the first is the greatest.
    pub(crate) ready: BinaryHeap<usize>,
    /// For each place those that wait for it.
    pub(crate) waiting: Vec<List<usize>>,
}

/// The first of these that has no mark.
fn open_need(marks: &[bool], needs: &[usize]) -> Option<usize>
    ensures none { IfNone result (are_marked marks.now needs.now ≡ true) }
    ensures some { IfSome result (λ m. has needs.now m ≡ true) }
    ensures unmarked { IfSome result (λ m. marked marks.now m ≡ false) }
{
    for need in needs {
        if !is_marked(marks, *need) {
            return Some(*need);
        }
    }
    None
}

/// Puts these places among those that may be next.
fn open_all(size: usize, ready: &mut BinaryHeap<usize>, places: &[usize]) -> Result<(), AllocError>
    requires { IsInHeap (heap_items ready.old) }
    ensures { OnOk result (Opens size (heap_items ready.old) places.now (heap_items ready.new)) }
{
    for place in places {
        ready.push(size.saturating_sub(*place))?;
    }
    Ok(())
}

/// Lets the place wait for another one.
fn wait_for(waiting: &mut Vec<List<usize>>, place: usize, need: usize) -> Result<(), AllocError>
    ensures { OnOk result (waiting.new.items ≡ with_waiting need place waiting.old.items) }
{
    if need < waiting.len() {
        waiting[need].push(place)
    } else {
        Ok(())
    }
}

/// The place is done, and those that waited for it may be next.
fn finish(size: usize, waits: &mut Waits, place: usize) -> Result<(), AllocError>
    requires heap { IsInHeap (heap_items waits.old.ready) }
    requires marks { place < length waits.old.marks.items }
    requires waiting { place < length waits.old.waiting.items }
    ensures done { OnOk result (waits.new.done ≡ waits.old.done ++ place ∷ []) }
    ensures marks { OnOk result (waits.new.marks.items ≡ set waits.old.marks.items place true) }
    ensures opened { OnOk result (Opens size (heap_items waits.old.ready)
        (get_or waits.old.waiting.items place []) (heap_items waits.new.ready)) }
    ensures waiting { OnOk result (waits.new.waiting.items ≡ waits.old.waiting.items) }
{
    waits.done.push(place)?;
    waits.marks[place] = true;
    open_all(size, &mut waits.ready, waits.waiting[place].as_slice())
}

/// Looks at the place, before which none is next.
fn look_at(graph: &[List<usize>], waits: &mut Waits, place: usize) -> Result<(), AllocError>
    requires inside { place < length graph.now }
    requires good { IsGoodBut graph.now waits.old.done waits.old.marks.items
        (heap_items waits.old.ready) waits.old.waiting.items place }
    ensures { OnOk result (IsGood graph.now waits.new.done waits.new.marks.items
        (heap_items waits.new.ready) waits.new.waiting.items) }
{
    if is_marked(waits.marks.as_slice(), place) {
        return Ok(());
    }
    match open_need(waits.marks.as_slice(), graph[place].as_slice()) {
        Some(need) => wait_for(&mut waits.waiting, place, need),
        None => finish(graph.len(), waits, place),
    }
}

/// Looks at the first of those that may be next.
fn turn(graph: &[List<usize>], waits: &mut Waits) -> Result<(), AllocError>
    requires { IsGood graph.now waits.old.done waits.old.marks.items
        (heap_items waits.old.ready) waits.old.waiting.items }
    ensures { OnOk result (IsGood graph.now waits.new.done waits.new.marks.items
        (heap_items waits.new.ready) waits.new.waiting.items) }
{
    match waits.ready.pop() {
        Some(key) => {
            let place = graph.len().saturating_sub(key);
            if place < graph.len() {
                look_at(graph, waits, place)
            } else {
                Ok(())
            }
        }
        None => Ok(()),
    }
}

/// All places may be next.
fn at_first(alloc: Global, graph: &[List<usize>]) -> Result<Waits, AllocError>
    ensures { IfOk result (λ waits. IsGood graph.now waits.done waits.marks.items
        (heap_items waits.ready) waits.waiting.items) }
{
    let marks = no_marks(alloc, graph.len())?;
    let waiting = no_rows(alloc, graph.len())?;
    let ready = all_open(alloc, graph.len())?;
    Ok(Waits {
        done: List::new(alloc),
        marks,
        ready,
        waiting,
    })
}

/// So many places for which none waits.
fn no_rows(alloc: Global, size: usize) -> Result<Vec<List<usize>>, AllocError>
    ensures { IfOk result (λ rows. length rows.items ≡ size) }
{
    let mut rows = Vec::new(alloc);
    for turn in 0..size {
        rows.push(List::new(alloc))?;
    }
    Ok(rows)
}

/// So many places that may be next.
fn all_open(alloc: Global, size: usize) -> Result<BinaryHeap<usize>, AllocError>
    ensures heap { IfOk result (λ ready. IsInHeap (heap_items ready)) }
    ensures all { IfOk result
        (λ ready. (i : ℕ) → i < size → has (heap_items ready) (size - i) ≡ true) }
{
    let places = all_places(alloc, size)?;
    let mut ready = BinaryHeap::new(alloc);
    open_all(size, &mut ready, places.as_slice())?;
    Ok(ready)
}

fn all_places(alloc: Global, size: usize) -> Result<List<usize>, AllocError>
    ensures { IfOk result (λ places. (i : ℕ) → i < size → has places i ≡ true) }
{
    let mut places = List::new(alloc);
    for place in 0..size {
        places.push(place)?;
    }
    Ok(places)
}

/// How many turns there are at most: one for each place, and one for each dependence.
fn most_turns(graph: &[List<usize>]) -> usize {
    let mut most = graph.len();
    for needs in graph {
        most = most.saturating_add(needs.len());
    }
    most
}

/// Takes as many turns as there may be.
fn take_turns(graph: &[List<usize>], waits: &mut Waits) -> Result<(), AllocError>
    requires { IsGood graph.now waits.old.done waits.old.marks.items
        (heap_items waits.old.ready) waits.old.waiting.items }
    ensures { OnOk result (IsGood graph.now waits.new.done waits.new.marks.items
        (heap_items waits.new.ready) waits.new.waiting.items) }
{
    for count in 0..most_turns(graph) {
        turn(graph, waits)?;
    }
    Ok(())
}

/// How far the order comes.
pub(crate) fn all_turns(alloc: Global, graph: &[List<usize>]) -> Result<Waits, AllocError>
    ensures { IfOk result (λ waits. IsGood graph.now waits.done waits.marks.items
        (heap_items waits.ready) waits.waiting.items) }
{
    let mut waits = at_first(alloc, graph)?;
    take_turns(graph, &mut waits)?;
    Ok(waits)
}

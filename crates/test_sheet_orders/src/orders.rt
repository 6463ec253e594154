// The order of global variables.
use global_order::order;
use std::alloc::AllocGlobal;
use std::process::Abort;
use xt_names::List;

pub(crate) fn with_needs(
    rt: &(impl Abort + AllocGlobal),
    graph: &mut Vec<List<usize>>,
    needs: &[usize],
) {
    let mut made = List::new(rt.alloc());
    for need in needs {
        made.push(*need).expect(rt, "memory");
    }
    graph.push(made).expect(rt, "memory");
}

fn is_order(rt: &(impl Abort + AllocGlobal), needs: &[&[usize]], wanted: &[usize]) -> bool {
    let mut graph = Vec::new(rt.alloc());
    for one in needs {
        with_needs(rt, &mut graph, one);
    }
    let found = order(rt.alloc(), graph.as_slice()).expect(rt, "memory");
    let same = found.as_slice() == wanted;
    drop(found);
    drop(graph);
    same
}

#[test]
fn orders(rt: HostRuntime) {
    let none: [&[usize]; 0] = [];
    assert!(rt; is_order(&rt, &none, &[]), "none");
    assert!(rt; is_order(&rt, &[&[], &[], &[]], &[0, 1, 2]), "free");
    assert!(rt; is_order(&rt, &[&[2], &[], &[]], &[1, 2, 0]), "one later");
    assert!(rt;
        is_order(&rt, &[&[1], &[2], &[3], &[]], &[3, 2, 1, 0]),
        "backwards"
    );
    assert!(rt;
        is_order(&rt, &[&[3], &[0], &[], &[]], &[2, 3, 0, 1]),
        "back and on"
    );
    assert!(rt; is_order(&rt, &[&[2, 2], &[0], &[]], &[2, 0, 1]), "twice");
}

#[test]
fn circles(rt: HostRuntime) {
    assert!(rt; is_order(&rt, &[&[0]], &[]), "itself");
    assert!(rt; is_order(&rt, &[&[1], &[0], &[]], &[2]), "two");
    assert!(rt;
        is_order(&rt, &[&[1], &[2], &[0], &[0], &[]], &[4]),
        "three, and one on them"
    );
    assert!(rt; is_order(&rt, &[&[7], &[]], &[1]), "no such global");
}

fn ladder(rt: &(impl Abort + AllocGlobal), size: usize) -> Vec<List<usize>> {
    let mut graph = Vec::new(rt.alloc());
    with_needs(rt, &mut graph, &[]);
    for place in 1..size {
        with_needs(rt, &mut graph, &[place - 1]);
    }
    graph
}

#[test]
fn a_hundred_thousand_in_order(rt: HostRuntime) {
    let graph = ladder(&rt, 100_000);
    let found = order(rt.alloc(), graph.as_slice()).expect(&rt, "memory");
    assert_eq!(rt; found.len(), 100_000);
    drop(found);
    drop(graph);
}

// Each but the last depends on the one after it.
fn ladder_down(rt: &(impl Abort + AllocGlobal), size: usize) -> Vec<List<usize>> {
    let mut graph = Vec::new(rt.alloc());
    for place in 1..size {
        with_needs(rt, &mut graph, &[place]);
    }
    with_needs(rt, &mut graph, &[]);
    graph
}

#[test]
fn a_hundred_thousand_from_the_last_on(rt: HostRuntime) {
    let graph = ladder_down(&rt, 100_000);
    let found = order(rt.alloc(), &graph).expect(&rt, "memory");
    assert!(rt; found.as_slice().len() == 100_000, "all");
    assert!(rt; found.as_slice()[0] == 99_999, "the last is first");
    assert!(rt; found.as_slice()[99_999] == 0, "the first is last");
    drop(found);
    drop(graph);
}

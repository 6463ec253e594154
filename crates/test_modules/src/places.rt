// The places of a graph that are reached from one.
use global_order::reached_places::reached;
use std::alloc::AllocGlobal;
use std::process::Abort;
use xt_names::List;

fn lead(rt: &(impl Abort + AllocGlobal), graph: &mut Vec<List<usize>>, to: &[usize]) {
    let mut made = List::new(rt.alloc());
    for place in to {
        made.push(*place).expect(rt, "memory");
    }
    graph.push(made).expect(rt, "memory");
}

fn are_reached(
    rt: &(impl Abort + AllocGlobal),
    leads: &[&[usize]],
    from: usize,
    wanted: &[usize],
) -> bool {
    let mut graph = Vec::new(rt.alloc());
    for one in leads {
        lead(rt, &mut graph, one);
    }
    let found = reached(rt.alloc(), graph.as_slice(), from).expect(rt, "memory");
    let same = found.as_slice() == wanted;
    drop(found);
    drop(graph);
    same
}

#[test]
fn places_in_breadth(rt: HostRuntime) {
    assert!(rt; are_reached(&rt, &[&[]], 0, &[0]), "itself");
    assert!(rt; are_reached(&rt, &[&[0]], 0, &[0]), "a circle of one");
    assert!(rt;
        are_reached(&rt, &[&[1], &[0, 2], &[], &[0]], 0, &[0, 1, 2]),
        "not the last"
    );
    assert!(rt;
        are_reached(&rt, &[&[3, 1], &[2], &[], &[2]], 0, &[0, 3, 1, 2]),
        "in breadth"
    );
    assert!(rt;
        are_reached(&rt, &[&[7, 1], &[]], 0, &[0, 1]),
        "no such place"
    );
    assert!(rt;
        are_reached(&rt, &[&[1], &[2], &[0]], 1, &[1, 2, 0]),
        "round a circle"
    );
}

#[test]
fn a_hundred_thousand_in_a_row(rt: HostRuntime) {
    let mut graph = Vec::new(rt.alloc());
    for place in 1..100_000 {
        lead(&rt, &mut graph, &[place]);
    }
    lead(&rt, &mut graph, &[0]);
    let found = reached(rt.alloc(), graph.as_slice(), 0).expect(&rt, "memory");
    assert_eq!(rt; found.as_slice().len(), 100_000);
    drop(found);
    drop(graph);
}

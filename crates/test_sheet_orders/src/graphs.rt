// The order of the first places of a graph by which of the last ones they reach.
use crate::orders::with_needs;
use global_order::graph_orders::order_by;
use std::alloc::AllocGlobal;
use std::process::Abort;
use xt_names::List;

// Whether this is the order of so many first places, which the places from `at` on stand for.
fn is_order(
    rt: &(impl Abort + AllocGlobal),
    rows: &[&[usize]],
    at: usize,
    count: usize,
    wanted: &[usize],
) -> bool {
    let mut graph = Vec::new(rt.alloc());
    for row in rows {
        with_needs(rt, &mut graph, row);
    }
    let found = order_by(rt.alloc(), graph.as_slice(), at, count).expect(rt, "memory");
    let same = found.as_slice() == wanted;
    drop(found);
    drop(graph);
    same
}

#[test]
fn orders(rt: HostRuntime) {
    let none: [&[usize]; 0] = [];
    assert!(rt; is_order(&rt, &none, 0, 0, &[]), "none");
    assert!(rt; is_order(&rt, &[&[], &[], &[], &[]], 2, 2, &[0, 1]), "free");
    assert!(rt;
        is_order(&rt, &[&[2], &[], &[4], &[], &[]], 3, 2, &[1, 0]),
        "through one between"
    );
    assert!(rt;
        is_order(&rt, &[&[2], &[], &[3], &[2, 5], &[], &[]], 4, 2, &[1, 0]),
        "through two that lead to each other"
    );
    assert!(rt;
        is_order(
            &rt,
            &[&[4], &[], &[3], &[6], &[3, 4], &[], &[], &[]],
            5,
            3,
            &[1, 0, 2]
        ),
        "two through the same"
    );
}

#[test]
fn circles(rt: HostRuntime) {
    assert!(rt; is_order(&rt, &[&[1], &[]], 1, 1, &[]), "itself");
    assert!(rt;
        is_order(
            &rt,
            &[&[3], &[4], &[], &[6], &[5], &[], &[], &[]],
            5,
            3,
            &[2]
        ),
        "two, through others"
    );
    assert!(rt;
        is_order(
            &rt,
            &[&[7], &[5, 6], &[6], &[], &[5], &[], &[], &[], &[], &[]],
            5,
            5,
            &[3]
        ),
        "two that each lead to itself, and others that lead to them"
    );
    assert!(rt;
        is_order(
            &rt,
            &[&[8], &[6], &[9], &[], &[], &[], &[], &[], &[], &[]],
            5,
            5,
            &[3, 0, 4, 2]
        ),
        "one that leads to itself, between others"
    );
    assert!(rt; is_order(&rt, &[&[9], &[2]], 1, 1, &[0]), "no such places");
}

// The order where half of as many places lead to one, and that to itself and to what stands for the
// places from this one on.
fn through_one(rt: &(impl Abort + AllocGlobal), from: usize) -> List<usize> {
    let mut graph = Vec::new(rt.alloc());
    for place in 0..20_000 {
        with_needs(rt, &mut graph, &[40_000]);
    }
    for place in 0..20_000 {
        with_needs(rt, &mut graph, &[]);
    }
    let mut others = Vec::new(rt.alloc());
    others.push(40_000).expect(rt, "memory");
    for place in from..40_000 {
        others.push(40_001 + place).expect(rt, "memory");
    }
    with_needs(rt, &mut graph, others.as_slice());
    drop(others);
    for place in 0..40_000 {
        with_needs(rt, &mut graph, &[]);
    }
    let found = order_by(rt.alloc(), graph.as_slice(), 40_001, 40_000).expect(rt, "memory");
    drop(graph);
    found
}

#[test]
fn forty_thousand_through_one(rt: HostRuntime) {
    let found = through_one(&rt, 20_000);
    assert_eq!(rt; found.len(), 40_000);
    assert!(rt;
        found.as_slice().get(0) == Some(&20_000),
        "those that are led to"
    );
    assert!(rt;
        found.as_slice().get(20_000) == Some(&0),
        "and then the others"
    );
    drop(found);
}

#[test]
fn forty_thousand_with_circles(rt: HostRuntime) {
    let found = through_one(&rt, 0);
    assert_eq!(rt; found.len(), 20_000);
    assert!(rt;
        found.as_slice().get(0) == Some(&20_000),
        "those that lead nowhere"
    );
    assert!(rt;
        found.as_slice().get(19_999) == Some(&39_999),
        "to the last"
    );
    drop(found);
}

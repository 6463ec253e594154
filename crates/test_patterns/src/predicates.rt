// What quiet predicates keep (XPath 2.0, 3.2.2, 3.5.2 and 3.6).
use crate::asked::judged;
use crate::made::{node_of, sample};
use crate::written::expr_of;
use std::alloc::AllocGlobal;
use std::process::Abort;

// Whether the predicate keeps the node of the sample at the position 2 of 3.
fn kept(rt: &(impl Abort + AllocGlobal), words: &str, place: &str) -> bool {
    let tree = sample(rt);
    let node = node_of(rt, &tree, place);
    let e = expr_of(rt, words);
    let truth = judged(rt, &e, &node, 2, 3);
    drop(e);
    drop(node);
    drop(tree);
    truth
}

fn check(rt: &(impl Abort + AllocGlobal), cases: &[(&str, &str, bool)]) {
    for (words, place, wanted) in cases {
        assert_eq!(rt; kept(rt, words, place), *wanted, "{words} at {place}");
    }
}

#[test]
fn positions(rt: HostRuntime) {
    check(
        &rt,
        [
            ("2", "00", true),
            ("1", "00", false),
            ("0", "00", false),
            ("last", "00", false),
            ("position,2,=", "00", true),
            ("position,1,>", "00", true),
            ("position,2,<", "00", false),
            ("last,3,=", "00", true),
            ("last,2,<=", "00", false),
            ("position,last,<", "00", true),
            ("position,last,=", "00", false),
            ("position,last,!=", "00", true),
        ]
        .as_slice(),
    );
}

#[test]
fn logic(rt: HostRuntime) {
    check(
        &rt,
        [
            ("true", "00", true),
            ("false", "00", false),
            ("false,not", "00", true),
            ("@k,not", "00", false),
            ("@z,not", "00", true),
            ("@k,position,2,=,and", "00", true),
            ("@z,position,2,=,and", "00", false),
            ("@z,position,2,=,or", "00", true),
            ("@z,position,1,=,or", "00", false),
            ("@z,false,or,true,and", "00", false),
        ]
        .as_slice(),
    );
}

#[test]
fn paths(rt: HostRuntime) {
    check(
        &rt,
        [
            ("@k", "00", true),
            ("@k", "01", false),
            ("b", "0", true),
            ("z", "0", false),
            ("b,exists", "0", true),
            ("b,empty", "0", false),
            ("z,empty", "0", true),
            ("d,e,/", "0", true),
            ("d,e,/,b,/", "0", true),
            ("d,b,/,e,/", "0", false),
            ("b,e,/", "0", false),
            ("text()", "00", true),
            ("b", "00@0", false),
            ("parent::a", "00@0", false),
            ("parent::b", "00@0", true),
            ("ancestor::a", "0610", true),
            ("ancestor::b", "0610", false),
        ]
        .as_slice(),
    );
}

#[test]
fn comparisons(rt: HostRuntime) {
    check(
        &rt,
        [
            ("@k,'m,=", "00", true),
            ("@k,'n,=", "00", false),
            ("@k,'n,<", "00", true),
            ("@k,'m,!=", "01", false),
            ("b,'two,=", "0", true),
            ("b,'three,=", "0", false),
            ("b,'one,!=", "0", true),
            ("d,b,/,'9,=", "0", true),
            ("b,count,3,=", "0", true),
            ("b,count,3,<", "0", false),
            ("descendant::b,count,3,>", "0", true),
            ("z,count,0,=", "0", true),
            ("name,'b,=", "00", true),
            ("local-name,'k,=", "00@0", true),
            ("name,'go,=", "05", true),
            ("name,',=", "03", true),
        ]
        .as_slice(),
    );
}

// Predicates of steps count positions along the axis.
#[test]
fn predicates_within(rt: HostRuntime) {
    check(
        &rt,
        [
            ("3,[]b", "0", true),
            ("3,[]b,@k,/", "0", false),
            ("2,[]b,@k,/,'n,=", "0", true),
            ("last,[]b,@k,/", "0", false),
            ("@k,'n,=,[]b", "0", true),
            ("@k,'z,=,[]b", "0", false),
            ("1,[]preceding-sibling::b,'two,=", "04", true),
            ("last,[]preceding-sibling::b,'one,=", "04", true),
            ("1,[]following-sibling::b,@k,/", "01", true),
        ]
        .as_slice(),
    );
}

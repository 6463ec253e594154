// Many siblings, and many ancestors.
use crate::asked::is_matched;
use crate::made::{many, nested_in_each_other, node_at};
use crate::written::pattern_of;
use std::alloc::AllocGlobal;
use std::process::Abort;
use xt_tree::Tree;

const COUNT: usize = 100_000;

fn found(rt: &(impl Abort + AllocGlobal), tree: &Tree, words: &str, place: usize) -> bool {
    let copy = tree.copy().expect(rt, "memory");
    let node = node_at(rt, copy, &[0, place], None);
    let pattern = pattern_of(rt, words);
    let truth = is_matched(rt, &pattern, &node);
    drop(pattern);
    drop(node);
    truth
}

// Without predicates no sibling is looked at, and with one the siblings are walked once.
#[test]
fn among_many_siblings(rt: HostRuntime) {
    let tree = many(&rt, COUNT);
    assert!(rt; found(&rt, &tree, "c", COUNT));
    assert!(rt; found(&rt, &tree, "/ a / c", COUNT));
    assert!(rt; found(&rt, &tree, "b[last]", 99_999));
    assert!(rt; !found(&rt, &tree, "b[2]", 99_999));
    for place in 0..500 {
        assert!(rt; found(&rt, &tree, "a // b", place));
    }
    drop(tree);
}

// A predicate that looks at no position is judged at the node alone, whatever stands beside it.
#[test]
fn predicates_without_positions(rt: HostRuntime) {
    let tree = many(&rt, 20_000);
    for place in 0..500 {
        assert!(rt; found(&rt, &tree, "b[@k,'m,=][text(),'one,=]", place));
        assert!(rt; !found(&rt, &tree, "b[@k,'n,=]", place));
    }
    drop(tree);
}

const LEVELS: usize = 2_000;

// Whether the pattern matches the innermost of so many elements `a`, one inside of the other.
fn found_innermost(rt: &(impl Abort + AllocGlobal), tree: &Tree, words: &str) -> bool {
    let copy = tree.copy().expect(rt, "memory");
    let mut path = Vec::new(rt.alloc());
    for _ in 0..LEVELS {
        path.push(0).expect(rt, "memory");
    }
    let node = node_at(rt, copy, path.as_slice(), None);
    let pattern = pattern_of(rt, words);
    let truth = is_matched(rt, &pattern, &node);
    drop(pattern);
    drop(node);
    truth
}

// There are more than 10^16 ways to choose an element for each step. Each `//` goes up once.
#[test]
fn many_steps_below_many_ancestors(rt: HostRuntime) {
    let tree = nested_in_each_other(&rt, LEVELS);
    let cases = [
        ("a // a // a // a // a // a // a", true),
        ("z // a // a // a // a // a // a", false),
        ("/ z // a / a // a // a // a // a // a", false),
    ];
    for (words, wanted) in cases {
        let truth = found_innermost(&rt, &tree, words);
        assert_eq!(rt; truth, wanted, "{words}");
    }
    drop(tree);
}

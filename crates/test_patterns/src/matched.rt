// Which nodes patterns match (XSLT 2.0, 5.5.3).
use crate::asked::is_matched;
use crate::made::{node_of, sample};
use crate::written::pattern_of;
use std::alloc::AllocGlobal;
use std::process::Abort;
use xt_names::Text;
use xt_tree::{Node, Tree};

fn found(rt: &(impl Abort + AllocGlobal), words: &str, place: &str) -> bool {
    let tree = sample(rt);
    let node = node_of(rt, &tree, place);
    let pattern = pattern_of(rt, words);
    let truth = is_matched(rt, &pattern, &node);
    drop(pattern);
    drop(node);
    drop(tree);
    truth
}

fn check(rt: &(impl Abort + AllocGlobal), cases: &[(&str, &str, bool)]) {
    for (words, place, wanted) in cases {
        assert_eq!(rt; found(rt, words, place), *wanted, "{words} at {place}");
    }
}

#[test]
fn single_steps(rt: HostRuntime) {
    check(
        &rt,
        [
            ("b", "00", true),
            ("b", "01", false),
            ("*", "01", true),
            ("*", "03", false),
            ("*", "", false),
            ("node()", "", false),
            ("node()", "03", true),
            ("node()", "0@0", false),
            ("text()", "000", true),
            ("comment()", "03", true),
            ("pi()", "05", true),
            ("pi(go)", "05", true),
            ("pi(go)", "03", false),
            ("@x", "0@0", true),
            ("@x", "0@1", false),
            ("@*", "0@1", true),
            ("@node()", "0@1", true),
            ("@*", "0", false),
            ("x", "0@0", false),
        ]
        .as_slice(),
    );
}

#[test]
fn ways_up(rt: HostRuntime) {
    check(
        &rt,
        [
            ("/", "", true),
            ("/", "0", false),
            ("/ a", "0", true),
            ("/ b", "00", false),
            ("a / b", "00", true),
            ("a / b", "060", false),
            ("d / b", "060", true),
            ("a // b", "060", true),
            ("a // b", "0610", true),
            ("d / b", "0610", false),
            ("d // b", "0610", true),
            ("d / e / b", "0610", true),
            ("a / e / b", "0610", false),
            ("a // e / b", "0610", true),
            ("// b", "0610", true),
            ("// a", "0", true),
            ("/ a // b", "0610", true),
            ("/ d // b", "0610", false),
            ("z // b", "0610", false),
            ("b / @k", "00@0", true),
            ("a / @k", "00@0", false),
            ("a // @k", "00@0", true),
            ("* / * / text()", "000", true),
        ]
        .as_slice(),
    );
}

#[test]
fn places(rt: HostRuntime) {
    check(
        &rt,
        [
            ("b[1]", "00", true),
            ("/ a / b[2]", "02", true),
            ("/ a / b[2]", "00", false),
            ("b[2]", "02", true),
            ("b[2]", "00", false),
            ("*[2]", "01", true),
            ("*[2]", "02", false),
            ("b[last]", "04", true),
            ("b[last]", "02", false),
            ("node()[last]", "07", true),
            ("b[@k][2]", "02", true),
            ("b[2][@k]", "02", true),
            ("b[3][@k]", "04", false),
            ("b[@k][last]", "02", true),
            ("b[@k,'n,=][1]", "02", true),
            ("b[@k,'n,=]", "00", false),
            ("b[position,last,<]", "04", false),
            ("a[b,count,3,=] / c", "01", true),
            ("a[1] // b[1]", "0610", true),
            ("@*[2]", "0@1", true),
            ("@*[2]", "0@0", false),
            ("a[last]", "0", true),
        ]
        .as_slice(),
    );
}

// Nodes without parent: the first step of a pattern without `/` at its front needs none above it.
fn alone(rt: &(impl Abort + AllocGlobal), words: &str, tree: Tree) -> bool {
    let node = Node::root_of(rt.alloc(), 7, tree).expect(rt, "memory");
    let pattern = pattern_of(rt, words);
    let truth = is_matched(rt, &pattern, &node);
    drop(pattern);
    drop(node);
    truth
}

fn comment(rt: &(impl Abort + AllocGlobal)) -> Tree {
    Tree::Comment(Text::make(rt.alloc(), "t").expect(rt, "memory"))
}

#[test]
fn nodes_without_parent(rt: HostRuntime) {
    let cases = [
        ("comment()", true),
        ("node()", true),
        ("comment()[1]", true),
        ("comment()[last]", true),
        ("comment()[2]", false),
        ("/ comment()", false),
        ("// comment()", false),
        ("* / comment()", false),
        ("* // comment()", false),
        ("/", false),
        ("@*", false),
    ];
    for (words, wanted) in cases {
        let truth = alone(&rt, words, comment(&rt));
        assert_eq!(rt; truth, wanted, "{words}");
    }
}

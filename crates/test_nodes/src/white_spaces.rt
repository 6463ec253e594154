// White space that is stripped, told by how many nodes and attributes are left.
use crate::made::{bare, element, list_of, list_of_two, name, text, text_tree, with};
use doc_set::white_space::{strip, stripped_trees_are_sound};
use std::alloc::AllocGlobal;
use std::process::Abort;
use xt_names::{ExprName, List, Name};
use xt_tree::{Attribute, Tree};
use xt_types::{NameTest, SpaceRule};

fn space_name(rt: &(impl Abort + AllocGlobal)) -> Name {
    Name {
        prefix: text(rt, "xml"),
        uri: text(rt, "http://www.w3.org/XML/1998/namespace"),
        local: text(rt, "space"),
    }
}

// an xml:space of this value, or no attribute where it is empty
fn space(rt: &(impl Abort + AllocGlobal), value: &str) -> List<Attribute> {
    if value.is_empty() {
        return List::new(rt.alloc());
    }
    let space = Attribute {
        name: space_name(rt),
        value: text(rt, value),
    };
    list_of(rt, space)
}

// `<b xml:space="..">`, three spaces, `</b>`
fn inner(rt: &(impl Abort + AllocGlobal), value: &str) -> Tree {
    element(rt, "b", space(rt, value), list_of(rt, text_tree(rt, "   ")))
}

// `<a xml:space="..">`, a space, the inner element, a line feed and a tab, `</a>`
fn outer(rt: &(impl Abort + AllocGlobal), value: &str, inner_value: &str) -> Tree {
    let two = list_of_two(rt, text_tree(rt, " "), inner(rt, inner_value));
    let kids = with(rt, two, text_tree(rt, "\n\t"));
    element(rt, "a", space(rt, value), kids)
}

// `strip *`
fn strip_all(rt: &(impl Abort + AllocGlobal)) -> List<SpaceRule> {
    let all = SpaceRule {
        strip: true,
        test: NameTest::Any,
    };
    list_of(rt, all)
}

// `preserve a strip *`
fn keep_in_a(rt: &(impl Abort + AllocGlobal)) -> List<SpaceRule> {
    let wanted = ExprName {
        uri: text(rt, ""),
        local: text(rt, "a"),
    };
    let keep = SpaceRule {
        strip: false,
        test: NameTest::Exact(wanted),
    };
    let all = SpaceRule {
        strip: true,
        test: NameTest::Any,
    };
    list_of_two(rt, keep, all)
}

fn left(rt: &(impl Abort + AllocGlobal), tree: Tree, rules: List<SpaceRule>) -> u64 {
    let made = strip(rt.alloc(), &tree, &rules).expect(rt, "memory");
    drop(tree);
    drop(rules);
    let size = made.size();
    drop(made);
    size
}

#[test]
fn the_first_rule_for_an_element_decides(rt: HostRuntime) {
    assert_eq!(rt; left(&rt, outer(&rt, "", ""), strip_all(&rt)), 2);
    assert_eq!(rt; left(&rt, outer(&rt, "", ""), keep_in_a(&rt)), 4);
    assert_eq!(rt; left(&rt, outer(&rt, "", ""), List::new(rt.alloc())), 5);
    stripped_trees_are_sound();
}

// (on the outer element, on the inner one, how many are left)
const SPACES: [(&str, &str, u64); 3] = [
    ("preserve", "", 6),
    // The two texts of the outer one stay, that of the inner one goes; each has its attribute.
    ("preserve", "default", 6),
    // Other values say nothing.
    ("preserved", "", 3),
];

#[test]
fn the_nearest_xml_space_decides(rt: HostRuntime) {
    for (outside, inside, wanted) in SPACES {
        let tree = outer(&rt, outside, inside);
        assert_eq!(rt;
            left(&rt, tree, strip_all(&rt)),
            wanted,
            "{outside}, {inside}"
        );
    }
}

#[test]
fn a_text_without_parent_is_kept(rt: HostRuntime) {
    assert_eq!(rt; left(&rt, text_tree(&rt, " "), strip_all(&rt)), 1);
}

// a text of white space in so many elements
fn deep(rt: &(impl Abort + AllocGlobal), levels: usize) -> Tree {
    let mut tree = text_tree(rt, " ");
    for _ in 0..levels {
        tree = bare(rt, "a", list_of(rt, tree));
    }
    tree
}

#[test]
fn strips_at_the_greatest_depth(rt: HostRuntime) {
    assert_eq!(rt; left(&rt, deep(&rt, 2000), strip_all(&rt)), 2000);
}

// an element of so many pairs of white space and an inner element
fn wide(rt: &(impl Abort + AllocGlobal), pairs: usize) -> Tree {
    let mut kids = List::new(rt.alloc());
    for _ in 0..pairs {
        kids.push(text_tree(rt, " ")).expect(rt, "memory");
        kids.push(inner(rt, "")).expect(rt, "memory");
    }
    bare(rt, "a", kids)
}

#[test]
fn strips_a_long_list(rt: HostRuntime) {
    assert_eq!(rt; left(&rt, wide(&rt, 100_000), strip_all(&rt)), 100_001);
}

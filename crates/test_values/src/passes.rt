// Node tests: of names, of trees and at places of a tree.
use crate::made::{attribute, element, instruction, name_in, text};
use node_tests::{attribute_passes, node_passes, passes, passes_name, spot_passes};
use std::alloc::AllocGlobal;
use std::process::Abort;
use xt_names::ExprName;
use xt_tree::{Node, Tree};
use xt_types::{Axis, NameTest, Test};

fn exact(rt: &(impl Abort + AllocGlobal), uri: &str, local: &str) -> NameTest {
    NameTest::Exact(ExprName {
        uri: text(rt, uri),
        local: text(rt, local),
    })
}

// whether the name `q:a` in `urn:p` passes
fn name_passes(rt: &(impl Abort + AllocGlobal), test: NameTest) -> bool {
    let name = name_in(rt, "q", "urn:p", "a");
    let answer = passes_name(&test, &name);
    drop(name);
    drop(test);
    answer
}

#[test]
fn a_name_is_compared_without_its_prefix(rt: HostRuntime) {
    assert!(rt; name_passes(&rt, exact(&rt, "urn:p", "a")));
    assert!(rt; !name_passes(&rt, exact(&rt, "", "a")));
}

#[test]
fn a_name_passes_by_uri_or_local_part(rt: HostRuntime) {
    assert!(rt; name_passes(&rt, NameTest::Uri(text(&rt, "urn:p"))));
    assert!(rt; name_passes(&rt, NameTest::Local(text(&rt, "a"))));
    assert!(rt; !name_passes(&rt, NameTest::Local(text(&rt, "q"))));
}

fn tree_passes(tree: &Tree, test: Test, axis: Axis) -> bool {
    let answer = passes(&test, axis, tree);
    drop(test);
    answer
}

#[test]
fn a_star_means_elements_off_the_attribute_axis(rt: HostRuntime) {
    let tree = element(&rt);
    assert!(rt; tree_passes(&tree, Test::Named(NameTest::Any), Axis::Child));
    assert!(rt; !tree_passes(&tree, Test::Named(NameTest::Any), Axis::Attribute));
    drop(tree);
}

#[test]
fn an_instruction_passes_by_its_target(rt: HostRuntime) {
    let tree = instruction(&rt);
    assert!(rt; tree_passes(&tree, Test::Pi(None), Axis::Child));
    assert!(rt; tree_passes(&tree, Test::Pi(Some(text(&rt, "t"))), Axis::Child));
    assert!(rt; !tree_passes(&tree, Test::Pi(Some(text(&rt, "d"))), Axis::Child));
    drop(tree);
}

#[test]
fn a_kind_passes_its_own_test(rt: HostRuntime) {
    let tree = Tree::Text(text(&rt, "a"));
    assert!(rt; tree_passes(&tree, Test::Text, Axis::Child));
    assert!(rt; tree_passes(&tree, Test::Node, Axis::Child));
    assert!(rt; !tree_passes(&tree, Test::Comment, Axis::Child));
    assert!(rt; !tree_passes(&tree, Test::Doc, Axis::Child));
    drop(tree);
}

// the attribute of `<a k="1">..</a>`
fn attribute_node(rt: &(impl Abort + AllocGlobal)) -> Node {
    let place = Node::at_place(rt.alloc(), 1, element(rt), &[], Some(0)).expect(rt, "memory");
    place.expect(rt, "a node")
}

fn passes_at_node(node: &Node, test: Test, axis: Axis) -> bool {
    let answer = node_passes(&test, axis, node);
    drop(test);
    answer
}

#[test]
fn a_star_means_attributes_on_the_attribute_axis(rt: HostRuntime) {
    let node = attribute_node(&rt);
    assert!(rt; passes_at_node(&node, Test::Named(NameTest::Any), Axis::Attribute));
    assert!(rt; !passes_at_node(&node, Test::Named(NameTest::Any), Axis::Itself));
    drop(node);
}

#[test]
fn an_attribute_test_holds_on_each_axis(rt: HostRuntime) {
    let node = attribute_node(&rt);
    assert!(rt; passes_at_node(&node, Test::Attr(exact(&rt, "", "k")), Axis::Itself));
    assert!(rt; !passes_at_node(&node, Test::Elem(NameTest::Any), Axis::Itself));
    drop(node);
}

fn passes_text(tree: &Tree, path: &[usize]) -> bool {
    spot_passes(&Test::Text, Axis::Child, tree, path, None)
}

#[test]
fn a_place_passes_by_the_tree_there(rt: HostRuntime) {
    let tree = element(&rt);
    assert!(rt; passes_text(&tree, &[0]) && !passes_text(&tree, &[]));
    assert!(rt; !passes_text(&tree, &[4]), "no node is there");
    drop(tree);
}

#[test]
fn a_name_means_an_attribute_on_its_axis_alone(rt: HostRuntime) {
    let test = Test::Named(NameTest::Any);
    let k = attribute(&rt, "k", "1");
    assert!(rt; attribute_passes(&test, Axis::Attribute, &k));
    assert!(rt; !attribute_passes(&test, Axis::Child, &k));
    drop(k);
}

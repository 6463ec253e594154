// What trees tell of themselves.
use crate::made::{element, instruction, text};
use xt_names::Text;
use xt_tree::{Kind, Node, Tree, is_white, tree_at};

fn is_t(target: Option<&Text>) -> bool {
    matches!(target, Some(target) if target.is("t"))
}

#[test]
fn an_instruction_has_a_target(rt: HostRuntime) {
    let tree = instruction(&rt);
    assert!(rt; is_t(tree.target()));
    drop(tree);
}

#[test]
fn an_element_has_no_target(rt: HostRuntime) {
    let tree = element(&rt);
    assert!(rt; tree.target().is_none());
    drop(tree);
}

#[test]
fn the_node_of_an_instruction_has_its_target(rt: HostRuntime) {
    let node = Node::root_of(rt.alloc(), 1, instruction(&rt)).expect(&rt, "memory");
    assert!(rt; is_t(node.target()));
    drop(node);
}

#[test]
fn a_text_in_an_element_is_one_step_down(rt: HostRuntime) {
    let tree = element(&rt);
    assert_eq!(rt; tree.depth(), 1);
    drop(tree);
}

fn is_text_at(tree: &Tree, path: &[usize]) -> bool {
    matches!(tree_at(tree, path), Some(at) if at.kind() == Kind::Text)
}

#[test]
fn the_first_child_is_at_its_place(rt: HostRuntime) {
    let tree = element(&rt);
    assert!(rt; is_text_at(&tree, &[0]));
    assert!(rt; tree_at(&tree, &[4]).is_none());
    drop(tree);
}

#[test]
fn only_white_space_is_white(rt: HostRuntime) {
    assert!(rt; is_white(&text(&rt, " \t\n")));
    assert!(rt; !is_white(&text(&rt, " a")));
}

// Nodes that are made of items, by the rules of stylesheets and by those of queries.
use crate::made::{
    KEEP, REFUSE, answer, attribute_item, document_item, is_code, name, text_item, two_items,
    with_item, word,
};
use node_builder::{BuildFault, Builder, Duplicates, simple};
use std::alloc::AllocGlobal;
use std::process::Abort;
use xdm_items::{Item, ItemList};
use xt_atoms::Atom;
use xt_tree::{Attribute, Kind, Node, Tree};

// the element `<e>` of the items
fn made(rt: &(impl Abort + AllocGlobal), items: ItemList, side: Duplicates) -> Node {
    answer(rt, items, side).expect(rt, "an element")
}

// Attributes.

fn is_attribute(attribute: &Attribute, local: &str, value: &str) -> bool {
    attribute.name.local.is(local) && attribute.value.is(value)
}

fn has_one_attribute(node: &Node, local: &str, value: &str) -> bool {
    match node.tree().attributes() {
        [one] => is_attribute(one, local, value),
        _ => false,
    }
}

fn two_of_one_name(rt: &(impl Abort + AllocGlobal)) -> ItemList {
    two_items(
        rt,
        attribute_item(rt, "k", "1"),
        attribute_item(rt, "k", "2"),
    )
}

#[test]
fn of_two_attributes_a_stylesheet_keeps_the_last(rt: HostRuntime) {
    let node = made(&rt, two_of_one_name(&rt), KEEP);
    assert!(rt; has_one_attribute(&node, "k", "2"));
    drop(node);
}

fn are_j_then_k(attributes: &[Attribute]) -> bool {
    match attributes {
        [first, second] => is_attribute(first, "j", "2") && is_attribute(second, "k", "3"),
        _ => false,
    }
}

#[test]
fn the_last_is_at_its_own_place(rt: HostRuntime) {
    let two = two_items(
        &rt,
        attribute_item(&rt, "k", "1"),
        attribute_item(&rt, "j", "2"),
    );
    let node = made(
        &rt,
        with_item(&rt, two, attribute_item(&rt, "k", "3")),
        KEEP,
    );
    assert!(rt; are_j_then_k(node.tree().attributes()));
    drop(node);
}

#[test]
fn two_attributes_are_an_error_in_a_query(rt: HostRuntime) {
    assert!(rt; is_code(answer(&rt, two_of_one_name(&rt), REFUSE), "XQDY0025"));
}

fn after_text(rt: &(impl Abort + AllocGlobal), first: &str) -> ItemList {
    two_items(rt, text_item(rt, first), attribute_item(rt, "k", "1"))
}

#[test]
fn an_attribute_after_a_text_is_an_error(rt: HostRuntime) {
    assert!(rt; is_code(answer(&rt, after_text(&rt, "t"), KEEP), "XTDE0410"));
    assert!(rt; is_code(answer(&rt, after_text(&rt, "t"), REFUSE), "XQTY0024"));
}

#[test]
fn an_attribute_may_stand_after_an_empty_text(rt: HostRuntime) {
    let node = made(&rt, after_text(&rt, ""), REFUSE);
    assert!(rt; has_one_attribute(&node, "k", "1"));
    drop(node);
}

// the answer to a document of two attributes
fn document_answer(rt: &(impl Abort + AllocGlobal), side: Duplicates) -> Result<Node, BuildFault> {
    let items = two_of_one_name(rt);
    let mut builder = Builder { next: 5 };
    let made = builder.document(rt.alloc(), &items, side);
    drop(builder);
    drop(items);
    made
}

#[test]
fn an_attribute_in_a_document_is_an_error(rt: HostRuntime) {
    assert!(rt; is_code(document_answer(&rt, KEEP), "XTDE0420"));
    assert!(rt; is_code(document_answer(&rt, REFUSE), "XPTY0004"));
}

// Texts and atoms.

fn has_text(tree: &Tree, expected: &str) -> bool {
    matches!(tree, Tree::Text(text) if text.is(expected))
}

// whether the one child of the element of two items is this text
fn gives_text(
    rt: &(impl Abort + AllocGlobal),
    items: ItemList,
    side: Duplicates,
    expected: &str,
) -> bool {
    let node = made(rt, items, side);
    let same = matches!(node.tree().kids(), [kid] if has_text(kid, expected));
    drop(node);
    same
}

#[test]
fn a_space_parts_two_atoms(rt: HostRuntime) {
    let items = two_items(&rt, word(&rt, "a"), Item::Atom(Atom::Int(-7)));
    assert!(rt; gives_text(&rt, items, KEEP, "a -7"));
    let empty = two_items(&rt, word(&rt, ""), word(&rt, ""));
    assert!(rt; gives_text(&rt, empty, REFUSE, " "));
}

#[test]
fn an_empty_text_parts_two_runs_of_atoms(rt: HostRuntime) {
    let two = two_items(&rt, word(&rt, "a"), text_item(&rt, ""));
    assert!(rt; gives_text(&rt, with_item(&rt, two, word(&rt, "b")), KEEP, "ab"));
}

#[test]
fn empty_texts_leave_no_child(rt: HostRuntime) {
    let items = two_items(&rt, text_item(&rt, ""), text_item(&rt, ""));
    let node = made(&rt, items, KEEP);
    assert_eq!(rt; node.child_count(), 0);
    drop(node);
}

fn are_joined_kids(kids: &[Tree]) -> bool {
    match kids {
        [first, second, third] => has_text(first, "ax")
            && second.kind() == Kind::Elem
            && has_text(third, "yb"),
        _ => false,
    }
}

#[test]
fn a_document_gives_its_children(rt: HostRuntime) {
    let two = two_items(&rt, text_item(&rt, "a"), document_item(&rt));
    let node = made(&rt, with_item(&rt, two, word(&rt, "b")), REFUSE);
    assert!(rt; are_joined_kids(node.tree().kids()));
    drop(node);
}

// Simple content.

#[test]
fn simple_content_joins(rt: HostRuntime) {
    let two = two_items(&rt, text_item(&rt, "a"), text_item(&rt, ""));
    let texts = with_item(&rt, two, text_item(&rt, "b"));
    let number = with_item(&rt, texts, Item::Atom(Atom::Int(1)));
    let document = with_item(&rt, number, document_item(&rt));
    let items = with_item(&rt, document, word(&rt, ""));
    let text = simple(rt.alloc(), &items, ", ").expect(&rt, "memory");
    drop(items);
    assert!(rt; text.is("ab, 1, xy, "));
    drop(text);
}

// The other constructors.

fn comment(rt: &(impl Abort + AllocGlobal), value: &str) -> Result<Node, BuildFault> {
    let mut builder = Builder { next: 5 };
    let made = builder.comment(rt.alloc(), value);
    drop(builder);
    made
}

#[test]
fn a_comment_is_made(rt: HostRuntime) {
    let node = comment(&rt, "a-b").expect(&rt, "a comment");
    assert!(rt; matches!(node.tree(), Tree::Comment(text) if text.is("a-b")));
    drop(node);
}

#[test]
fn a_comment_has_no_two_hyphens_and_none_at_its_end(rt: HostRuntime) {
    assert!(rt; is_code(comment(&rt, "a--b"), "XQDY0072"));
    assert!(rt; is_code(comment(&rt, "a-"), "XQDY0072"));
}

fn instruction(rt: &(impl Abort + AllocGlobal), value: &str) -> Result<Node, BuildFault> {
    let mut builder = Builder { next: 5 };
    let made = builder.pi(rt.alloc(), "p", value);
    drop(builder);
    made
}

fn is_instruction(tree: &Tree, value: &str) -> bool {
    matches!(tree, Tree::Pi(target, text) if target.is("p") && text.is(value))
}

#[test]
fn an_instruction_loses_white_space_at_the_front(rt: HostRuntime) {
    let node = instruction(&rt, " \t\n d e ").expect(&rt, "an instruction");
    assert!(rt; is_instruction(node.tree(), "d e "));
    drop(node);
}

#[test]
fn an_instruction_holds_no_end(rt: HostRuntime) {
    assert!(rt; is_code(instruction(&rt, "a?>b"), "XQDY0026"));
}

fn is_lone_attribute(tree: &Tree) -> bool {
    matches!(tree, Tree::Attr(name, value) if name.local.is("k") && value.is("v"))
}

#[test]
fn an_attribute_is_made(rt: HostRuntime) {
    let mut builder = Builder { next: 5 };
    let made = builder.attribute(rt.alloc(), name(&rt, "k"), "v");
    drop(builder);
    let node = made.expect(&rt, "an attribute");
    assert!(rt; is_lone_attribute(node.tree()));
    drop(node);
}

// Items: their typed values, truth values, types and conversions.
use crate::made::{element, untyped, with_item};
use std::alloc::AllocGlobal;
use std::process::Abort;
use xdm_items::{
    Item, ItemList, atomize, convert, copy_item_list, ebv, has_atom_type, matches, matches_item,
    truth_of_atom,
};
use xt_atoms::{Atom, ValueFault};
use xt_names::{AtomType, Code, DynamicCode};
use xt_tree::Node;
use xt_types::{Count, ItemType, NameTest, SeqType, Test};

// the node at this place of `<a k="1">t<!--c--><?t d?>u</a>`
fn node(rt: &(impl Abort + AllocGlobal), path: &[usize], attribute: Option<usize>) -> ItemList {
    let place = Node::at_place(rt.alloc(), 1, element(rt), path, attribute).expect(rt, "memory");
    ItemList::one(rt.alloc(), Item::Node(place.expect(rt, "a node")))
}

fn is_untyped(items: &ItemList, text: &str) -> bool {
    matches!(items.as_slice(), [Item::Atom(Atom::Untyped(value))] if value.is(text))
}

fn is_string(items: &ItemList, text: &str) -> bool {
    matches!(items.as_slice(), [Item::Atom(Atom::Str(value))] if value.is(text))
}

// the typed value of the items
fn atoms_of(rt: &(impl Abort + AllocGlobal), items: ItemList) -> ItemList {
    let atoms = atomize(rt.alloc(), &items).expect(rt, "memory");
    drop(items);
    atoms
}

fn untyped_at(
    rt: &(impl Abort + AllocGlobal),
    path: &[usize],
    attribute: Option<usize>,
    text: &str,
) -> bool {
    let atoms = atoms_of(rt, node(rt, path, attribute));
    let same = is_untyped(&atoms, text);
    drop(atoms);
    same
}

#[test]
fn elements_attributes_and_texts_are_untyped(rt: HostRuntime) {
    assert!(rt; untyped_at(&rt, &[], None, "tu"));
    assert!(rt; untyped_at(&rt, &[], Some(0), "1"));
    assert!(rt; untyped_at(&rt, &[3], None, "u"));
}

fn string_at(rt: &(impl Abort + AllocGlobal), path: &[usize], text: &str) -> bool {
    let atoms = atoms_of(rt, node(rt, path, None));
    let same = is_string(&atoms, text);
    drop(atoms);
    same
}

#[test]
fn comments_and_instructions_are_strings(rt: HostRuntime) {
    assert!(rt; string_at(&rt, &[1], "c"));
    assert!(rt; string_at(&rt, &[2], "d"));
}

fn one(rt: &(impl Abort + AllocGlobal), atom: Atom) -> ItemList {
    ItemList::one(rt.alloc(), Item::Atom(atom))
}

fn two(rt: &(impl Abort + AllocGlobal), first: Atom, second: Atom) -> ItemList {
    with_item(rt, one(rt, first), Item::Atom(second))
}

fn is_seven(items: &ItemList) -> bool {
    matches!(items.as_slice(), [Item::Atom(Atom::Int(7))])
}

#[test]
fn an_atom_stays(rt: HostRuntime) {
    let atoms = atoms_of(&rt, one(&rt, Atom::Int(7)));
    assert!(rt; is_seven(&atoms));
    drop(atoms);
}

#[test]
fn items_are_copied(rt: HostRuntime) {
    let items = one(&rt, Atom::Int(7));
    let copy = copy_item_list(&items).expect(&rt, "memory");
    drop(items);
    assert!(rt; is_seven(&copy));
    drop(copy);
}

fn truth_of(items: ItemList) -> Result<bool, Code> {
    let truth = ebv(&items);
    drop(items);
    truth
}

#[test]
fn truth_values_are_told(rt: HostRuntime) {
    assert!(rt; truth_of(ItemList::new(rt.alloc())) == Ok(false));
    assert!(rt; truth_of(one(&rt, untyped(&rt, "0"))) == Ok(true));
    assert!(rt; truth_of(one(&rt, untyped(&rt, ""))) == Ok(false));
    assert!(rt; truth_of_atom(&Atom::Int(0)) == Ok(false));
}

#[test]
fn a_list_that_begins_with_a_node_is_true(rt: HostRuntime) {
    let items = with_item(&rt, node(&rt, &[], None), Item::Atom(Atom::Bool(false)));
    assert!(rt; truth_of(items) == Ok(true));
}

fn two_booleans(rt: &(impl Abort + AllocGlobal)) -> ItemList {
    two(rt, Atom::Bool(true), Atom::Bool(true))
}

#[test]
fn two_atoms_have_no_truth_value(rt: HostRuntime) {
    assert!(rt; truth_of(two_booleans(&rt)) == Err(Code::Dynamic(DynamicCode::FORG0006)));
}

fn of(kind: AtomType, count: Count) -> SeqType {
    SeqType::Of(ItemType::Atomic(kind), count)
}

fn of_kind(test: Test, count: Count) -> SeqType {
    SeqType::Of(ItemType::Kind(test), count)
}

fn has_type(items: &ItemList, to: SeqType) -> bool {
    let answer = matches(items, &to);
    drop(to);
    answer
}

#[test]
fn counts_are_matched(rt: HostRuntime) {
    let items = two_booleans(&rt);
    assert!(rt; has_type(&items, of(AtomType::Bool, Count::More)));
    assert!(rt; has_type(&items, of(AtomType::Any, Count::Many)));
    assert!(rt; !has_type(&items, of(AtomType::Bool, Count::Opt)));
    assert!(rt; !has_type(&items, of(AtomType::Bool, Count::One)));
    assert!(rt; !has_type(&items, SeqType::Empty));
    drop(items);
}

#[test]
fn no_item_is_matched(rt: HostRuntime) {
    let none = ItemList::new(rt.alloc());
    assert!(rt; has_type(&none, SeqType::Empty));
    assert!(rt; has_type(&none, of(AtomType::Int, Count::Opt)));
    assert!(rt; !has_type(&none, SeqType::Of(ItemType::Any, Count::More)));
    drop(none);
}

#[test]
fn kinds_are_matched(rt: HostRuntime) {
    let items = node(&rt, &[], Some(0));
    assert!(rt; has_type(&items, of_kind(Test::Attr(NameTest::Any), Count::One)));
    assert!(rt; !has_type(&items, of_kind(Test::Elem(NameTest::Any), Count::One)));
    drop(items);
}

#[test]
fn atoms_have_one_type(rt: HostRuntime) {
    let text = untyped(&rt, "a");
    assert!(rt; has_atom_type(AtomType::Untyped, &text) && has_atom_type(AtomType::Any, &text));
    assert!(rt; !has_atom_type(AtomType::Str, &text));
    let item = Item::Atom(text);
    assert!(rt; !matches_item(&ItemType::Kind(Test::Node), &item));
    drop(item);
}

// the eight characters of the error, or `7` or `ok` for a value
fn ending(answer: Result<ItemList, ValueFault>) -> &'static str {
    match answer {
        Ok(items) => {
            let seven = is_seven(&items);
            drop(items);
            if seven { "7" } else { "ok" }
        }
        Err(ValueFault::Error(code)) => code.text(),
        Err(ValueFault::Memory(_)) => "memory",
    }
}

fn conversion(rt: &(impl Abort + AllocGlobal), items: ItemList, to: SeqType) -> &'static str {
    let answer = convert(rt.alloc(), items, &to);
    drop(to);
    ending(answer)
}

#[test]
fn untyped_text_is_converted(rt: HostRuntime) {
    let items = one(&rt, untyped(&rt, " 7"));
    assert_eq!(rt; conversion(&rt, items, of(AtomType::Int, Count::One)), "7");
}

#[test]
fn the_cast_comes_before_the_type(rt: HostRuntime) {
    let items = two(&rt, Atom::Bool(true), untyped(&rt, "x"));
    assert_eq!(rt;
        conversion(&rt, items, of(AtomType::Int, Count::One)),
        "FORG0001"
    );
}

#[test]
fn a_count_that_is_not_allowed_is_refused(rt: HostRuntime) {
    let items = two_booleans(&rt);
    assert_eq!(rt;
        conversion(&rt, items, of(AtomType::Bool, Count::Opt)),
        "XPTY0004"
    );
}

#[test]
fn no_text_is_cast_to_a_name(rt: HostRuntime) {
    let items = one(&rt, untyped(&rt, "a"));
    assert_eq!(rt;
        conversion(&rt, items, of(AtomType::QName, Count::One)),
        "XPTY0004"
    );
}

#[test]
fn a_node_is_atomized_for_an_atomic_type(rt: HostRuntime) {
    let items = node(&rt, &[], Some(0));
    assert_eq!(rt; conversion(&rt, items, of(AtomType::Int, Count::One)), "ok");
}

#[test]
fn an_integer_is_no_text(rt: HostRuntime) {
    let items = one(&rt, Atom::Int(7));
    assert_eq!(rt;
        conversion(&rt, items, of(AtomType::Str, Count::One)),
        "XPTY0004"
    );
}

#[test]
fn an_atom_is_no_node(rt: HostRuntime) {
    let items = one(&rt, Atom::Int(7));
    assert_eq!(rt;
        conversion(&rt, items, of_kind(Test::Node, Count::Many)),
        "XPTY0004"
    );
}

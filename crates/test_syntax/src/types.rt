// Tests and types: their copies, and which of them a text can spell.
use crate::made::{list_of, text};
use xt_types::{
    Count, ItemType, NameTest, SeqType, SpaceRule, Test, copy_item_type_list, copy_name_test_list,
    copy_option, copy_seq_type_list, copy_space_rule_list, copy_test_list, is_regular_name_test,
    is_regular_test, is_regular_type,
};

#[test]
fn a_test_that_may_be_there_is_copied(rt: HostRuntime) {
    let copy = copy_option(&Some(Test::Text)).expect(&rt, "memory");
    assert!(rt; matches!(copy, Some(Test::Text)));
}

#[test]
fn name_tests_are_copied(rt: HostRuntime) {
    let items = list_of(&rt, NameTest::Local(text(&rt, "a")));
    let copy = copy_name_test_list(&items).expect(&rt, "memory");
    drop(items);
    assert!(rt; matches!(copy.as_slice(), [NameTest::Local(local)] if local.is("a")));
}

#[test]
fn tests_are_copied(rt: HostRuntime) {
    let items = list_of(&rt, Test::Comment);
    let copy = copy_test_list(&items).expect(&rt, "memory");
    drop(items);
    assert!(rt; matches!(copy.as_slice(), [Test::Comment]));
}

#[test]
fn types_of_items_are_copied(rt: HostRuntime) {
    let items = list_of(&rt, ItemType::Kind(Test::Node));
    let copy = copy_item_type_list(&items).expect(&rt, "memory");
    drop(items);
    assert!(rt; matches!(copy.as_slice(), [ItemType::Kind(Test::Node)]));
}

#[test]
fn types_of_sequences_are_copied(rt: HostRuntime) {
    let items = list_of(&rt, SeqType::Of(ItemType::Any, Count::Many));
    let copy = copy_seq_type_list(&items).expect(&rt, "memory");
    drop(items);
    assert!(rt; matches!(copy.as_slice(), [SeqType::Of(ItemType::Any, Count::Many)]));
}

#[test]
fn a_type_is_copied(rt: HostRuntime) {
    let test = Test::Named(NameTest::Local(text(&rt, "a")));
    let made = SeqType::Of(ItemType::Kind(test), Count::More);
    let copy = made.copy().expect(&rt, "memory");
    assert!(rt; copy == made);
    drop((made, copy));
}

#[test]
fn rules_are_copied(rt: HostRuntime) {
    let rule = SpaceRule {
        strip: true,
        test: NameTest::Any,
    };
    let rules = list_of(&rt, rule);
    let copy = copy_space_rule_list(&rules).expect(&rt, "memory");
    drop(rules);
    assert!(rt; matches!(copy.as_slice(), [only] if only.strip && only.test == NameTest::Any));
    drop(copy);
}

#[test]
fn a_kind_in_a_type_has_no_wildcard(rt: HostRuntime) {
    let test = NameTest::Local(text(&rt, "a"));
    assert!(rt; is_regular_name_test(&test));
    let kind = Test::Elem(test);
    assert!(rt; !is_regular_test(&kind));
    drop(kind);
}

fn is_spelled(test: Test) -> bool {
    let made = SeqType::Of(ItemType::Kind(test), Count::Opt);
    let answer = is_regular_type(&made);
    drop(made);
    answer
}

#[test]
fn a_type_names_a_kind(rt: HostRuntime) {
    assert!(rt; is_regular_type(&SeqType::Empty));
    assert!(rt; is_spelled(Test::Attr(NameTest::Any)));
    assert!(rt; !is_spelled(Test::Named(NameTest::Any)));
}

// Copies of the parts of instructions, in which a text stands for each expression and pattern.
use crate::instrs::{
    AvtName, Bound, Grouping, Instr, LiteralAttr, Sort, Value, When, attribute, avt_name, bound,
    chars, select, sort, when,
};
use crate::made::{list_of, shared, text};
use xt_sheets::{
    ModeUse, copy_avt_name_list, copy_bound_list, copy_grouping_list, copy_instr_list,
    copy_literal_attr_list, copy_mode_use_list, copy_sort_list, copy_value_list, copy_when_list,
};

fn is_chars(instr: &Instr, s: &str) -> bool {
    matches!(instr, Instr::Chars(text) if text.is(s))
}

fn is_body(body: &[Instr], s: &str) -> bool {
    matches!(body, [only] if is_chars(only, s))
}

fn is_copy(instr: &Instr, s: &str) -> bool {
    matches!(instr, Instr::Copy(body) if is_body(body.get().as_slice(), s))
}

#[test]
fn an_instruction_is_copied(rt: HostRuntime) {
    let instr = Instr::Copy(shared(&rt, list_of(&rt, chars(&rt, "a"))));
    let copy = instr.copy().expect(&rt, "memory");
    drop(instr);
    assert!(rt; is_copy(&copy, "a"));
    drop(copy);
}

#[test]
fn instructions_are_copied(rt: HostRuntime) {
    let items = list_of(&rt, chars(&rt, "a"));
    let copy = copy_instr_list(&items).expect(&rt, "memory");
    drop(items);
    assert!(rt; is_body(copy.as_slice(), "a"));
    drop(copy);
}

fn is_when(when: &When, test: &str, s: &str) -> bool {
    when.test.get().is(test) && is_body(when.body.get().as_slice(), s)
}

#[test]
fn a_when_is_copied(rt: HostRuntime) {
    let made = when(&rt, "t", chars(&rt, "a"));
    let copy = made.copy().expect(&rt, "memory");
    drop(made);
    assert!(rt; is_when(&copy, "t", "a"));
    drop(copy);
}

#[test]
fn the_whens_of_a_choose_are_copied(rt: HostRuntime) {
    let whens = list_of(&rt, when(&rt, "t", chars(&rt, "a")));
    let copy = copy_when_list(&whens).expect(&rt, "memory");
    drop(whens);
    assert!(rt; matches!(copy.as_slice(), [only] if is_when(only, "t", "a")));
    drop(copy);
}

fn is_select(value: &Value, e: &str) -> bool {
    matches!(value, Value::Select(code) if code.get().is(e))
}

#[test]
fn a_value_is_copied(rt: HostRuntime) {
    let made = select(&rt, "e");
    let copy = made.copy().expect(&rt, "memory");
    drop(made);
    assert!(rt; is_select(&copy, "e"));
    drop(copy);
}

#[test]
fn values_are_copied(rt: HostRuntime) {
    let items = list_of(&rt, select(&rt, "e"));
    let copy = copy_value_list(&items).expect(&rt, "memory");
    drop(items);
    assert!(rt; matches!(copy.as_slice(), [only] if is_select(only, "e")));
    drop(copy);
}

fn is_bound(bound: &Bound, local: &str, e: &str) -> bool {
    bound.name.local.is(local) && bound.tunnel && is_select(&bound.value, e)
}

#[test]
fn a_parameter_is_copied(rt: HostRuntime) {
    let made = bound(&rt, "p", select(&rt, "e"));
    let copy = made.copy().expect(&rt, "memory");
    drop(made);
    assert!(rt; is_bound(&copy, "p", "e"));
    drop(copy);
}

#[test]
fn parameters_are_copied(rt: HostRuntime) {
    let params = list_of(&rt, bound(&rt, "p", select(&rt, "e")));
    let copy = copy_bound_list(&params).expect(&rt, "memory");
    drop(params);
    assert!(rt; matches!(copy.as_slice(), [only] if is_bound(only, "p", "e")));
    drop(copy);
}

fn is_avt_name(name: &AvtName, default_uri: &str) -> bool {
    name.default_uri.is(default_uri) && name.text.get().len() == 1 && name.scope.get().is_empty()
}

#[test]
fn computed_names_are_copied(rt: HostRuntime) {
    let items = list_of(&rt, avt_name(&rt, "u"));
    let copy = copy_avt_name_list(&items).expect(&rt, "memory");
    drop(items);
    assert!(rt; matches!(copy.as_slice(), [only] if is_avt_name(only, "u")));
    drop(copy);
}

fn is_attribute(attribute: &LiteralAttr, local: &str) -> bool {
    attribute.name.local.is(local) && attribute.value.get().len() == 1
}

#[test]
fn literal_attributes_are_copied(rt: HostRuntime) {
    let items = list_of(&rt, attribute(&rt, "n"));
    let copy = copy_literal_attr_list(&items).expect(&rt, "memory");
    drop(items);
    assert!(rt; matches!(copy.as_slice(), [only] if is_attribute(only, "n")));
    drop(copy);
}

fn is_sort(sort: &Sort, key: &str) -> bool {
    sort.key.get().is(key) && sort.descending && sort.number == Some(false)
}

#[test]
fn sort_keys_are_copied(rt: HostRuntime) {
    let items = list_of(&rt, sort(&rt, "k"));
    let copy = copy_sort_list(&items).expect(&rt, "memory");
    drop(items);
    assert!(rt; matches!(copy.as_slice(), [only] if is_sort(only, "k")));
    drop(copy);
}

fn is_adjacent(grouping: &Grouping, key: &str) -> bool {
    matches!(grouping, Grouping::Adjacent(code) if code.get().is(key))
}

#[test]
fn groupings_are_copied(rt: HostRuntime) {
    let grouping = Grouping::Adjacent(shared(&rt, text(&rt, "k")));
    let items = list_of(&rt, grouping);
    let copy = copy_grouping_list(&items).expect(&rt, "memory");
    drop(items);
    assert!(rt; matches!(copy.as_slice(), [only] if is_adjacent(only, "k")));
    drop(copy);
}

#[test]
fn uses_of_modes_are_copied(rt: HostRuntime) {
    let items = list_of(&rt, ModeUse::Number(2));
    let copy = copy_mode_use_list(&items).expect(&rt, "memory");
    drop(items);
    assert!(rt; matches!(copy.as_slice(), [ModeUse::Number(2)]));
    drop(copy);
}

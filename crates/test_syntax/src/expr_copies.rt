// Copies of lists of expressions and of their parts.
use crate::exprs::{bind, comma, leaf_arm, order, ordered};
use crate::made::{bare_name, list_of, list_of_two, shared, text};
use xt_syntax::{
    Arm, Clause, DirectAttr, Expr, Flwor, NameSource, Part, copy_arm_list, copy_bind_list,
    copy_clause_list, copy_direct_attr_list, copy_expr_list, copy_flwor_list,
    copy_name_source_list, copy_order_list, copy_part_list, copy_shared_option,
};

#[test]
fn an_expression_that_may_be_there_is_copied(rt: HostRuntime) {
    let copy = copy_shared_option(&Some(shared(&rt, Expr::Root))).expect(&rt, "memory");
    assert!(rt; matches!(&copy, Some(only) if matches!(only.get(), Expr::Root)));
    drop(copy);
}

fn is_one_and_context(items: &[Expr]) -> bool {
    matches!(items, [Expr::Int(1), Expr::Context])
}

#[test]
fn an_expression_is_copied(rt: HostRuntime) {
    let made = comma(&rt, list_of_two(&rt, Expr::Int(1), Expr::Context));
    let copy = made.copy().expect(&rt, "memory");
    drop(made);
    assert!(rt; matches!(&copy, Expr::Comma(all) if is_one_and_context(all.get().as_slice())));
    drop(copy);
}

#[test]
fn expressions_are_copied(rt: HostRuntime) {
    let items = list_of(&rt, Expr::Context);
    let copy = copy_expr_list(&items).expect(&rt, "memory");
    drop(items);
    assert!(rt; matches!(copy.as_slice(), [Expr::Context]));
    drop(copy);
}

fn is_leaf_arm(arm: &Arm) -> bool {
    matches!(arm.test.get(), Expr::Root)
}

#[test]
fn arms_are_copied(rt: HostRuntime) {
    let items = list_of(&rt, leaf_arm(&rt));
    let copy = copy_arm_list(&items).expect(&rt, "memory");
    drop(items);
    assert!(rt; matches!(copy.as_slice(), [only] if is_leaf_arm(only)));
    drop(copy);
}

#[test]
fn bindings_are_copied(rt: HostRuntime) {
    let items = list_of(&rt, bind(&rt, Expr::Root));
    let copy = copy_bind_list(&items).expect(&rt, "memory");
    drop(items);
    assert!(rt; matches!(copy.as_slice(), [only] if only.var.local.is("v")));
    drop(copy);
}

fn is_ordered(flwor: &Flwor) -> bool {
    flwor.orders.get().len() == 1 && flwor.clauses.get().len() == 1 && !flwor.stable
}

#[test]
fn ordered_expressions_are_copied(rt: HostRuntime) {
    let items = list_of(&rt, ordered(&rt, Expr::Context));
    let copy = copy_flwor_list(&items).expect(&rt, "memory");
    drop(items);
    assert!(rt; matches!(copy.as_slice(), [only] if is_ordered(only)));
    drop(copy);
}

fn is_for(clause: &Clause) -> bool {
    matches!(clause, Clause::For(bind, None) if bind.var.local.is("v"))
}

#[test]
fn clauses_are_copied(rt: HostRuntime) {
    let items = list_of(&rt, Clause::For(bind(&rt, Expr::Root), None));
    let copy = copy_clause_list(&items).expect(&rt, "memory");
    drop(items);
    assert!(rt; matches!(copy.as_slice(), [only] if is_for(only)));
    drop(copy);
}

#[test]
fn orders_are_copied(rt: HostRuntime) {
    let items = list_of(&rt, order(&rt, Expr::Context));
    let copy = copy_order_list(&items).expect(&rt, "memory");
    drop(items);
    assert!(rt; matches!(copy.as_slice(), [only] if !only.descending));
    drop(copy);
}

fn is_fixed(source: &NameSource) -> bool {
    matches!(source, NameSource::Fixed(name) if name.local.is("a"))
}

#[test]
fn names_of_constructors_are_copied(rt: HostRuntime) {
    let items = list_of(&rt, NameSource::Fixed(bare_name(&rt, "a")));
    let copy = copy_name_source_list(&items).expect(&rt, "memory");
    drop(items);
    assert!(rt; matches!(copy.as_slice(), [only] if is_fixed(only)));
    drop(copy);
}

fn is_chars(part: &Part) -> bool {
    matches!(part, Part::Chars(chars) if chars.is("v"))
}

fn is_attribute(attribute: &DirectAttr) -> bool {
    attribute.name.local.is("k")
        && matches!(attribute.parts.get().as_slice(), [only] if is_chars(only))
}

#[test]
fn direct_attributes_are_copied(rt: HostRuntime) {
    let parts = list_of(&rt, Part::Chars(text(&rt, "v")));
    let attribute = DirectAttr {
        name: bare_name(&rt, "k"),
        parts: shared(&rt, parts),
    };
    let items = list_of(&rt, attribute);
    let copy = copy_direct_attr_list(&items).expect(&rt, "memory");
    drop(items);
    assert!(rt; matches!(copy.as_slice(), [only] if is_attribute(only)));
    drop(copy);
}

#[test]
fn parts_of_direct_elements_are_copied(rt: HostRuntime) {
    let items = list_of(&rt, Part::Chars(text(&rt, "v")));
    let copy = copy_part_list(&items).expect(&rt, "memory");
    drop(items);
    assert!(rt; matches!(copy.as_slice(), [only] if is_chars(only)));
    drop(copy);
}

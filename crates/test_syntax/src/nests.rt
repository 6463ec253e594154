// How deep expressions and patterns nest.
use crate::exprs::{and, comma, direct, filter, flwor, if_of, leaf_arm, or, some, step, sum};
use crate::made::{list_of, list_of_two, shared, with};
use std::alloc::AllocGlobal;
use std::process::Abort;
use xt_forms::{nest, nest_pattern};
use xt_names::List;
use xt_syntax::{Axis, Expr, Part, Pattern, PatternStep, Test};

fn levels(e: Expr) -> u32 {
    let levels = nest(&e);
    drop(e);
    levels
}

#[test]
fn a_whole_is_a_level_above_its_parts(rt: HostRuntime) {
    assert_eq!(rt; levels(Expr::Context), 1);
    assert_eq!(rt;
        levels(comma(&rt, list_of_two(&rt, Expr::Int(1), Expr::Root))),
        2
    );
    assert_eq!(rt; levels(or(&rt, Expr::Root, Expr::Context)), 2);
    let both = and(&rt, Expr::Root, Expr::Context);
    assert_eq!(rt; levels(or(&rt, both, Expr::Root)), 3);
    let inner = sum(&rt, Expr::Int(1), Expr::Int(2));
    assert_eq!(rt; levels(sum(&rt, Expr::Int(3), inner)), 3);
}

#[test]
fn an_if_is_one_level_with_all_its_arms(rt: HostRuntime) {
    let two = list_of_two(&rt, leaf_arm(&rt), leaf_arm(&rt));
    let arms = with(&rt, two, leaf_arm(&rt));
    assert_eq!(rt; levels(if_of(&rt, arms, Expr::Int(0))), 2);
}

#[test]
fn a_predicate_stands_within_its_step(rt: HostRuntime) {
    assert_eq!(rt; levels(step(&rt, List::new(rt.alloc()))), 1);
    assert_eq!(rt; levels(step(&rt, list_of(&rt, Expr::Int(1)))), 2);
}

fn chain(rt: &(impl Abort + AllocGlobal), additions: u32) -> Expr {
    let mut e = Expr::Int(0);
    for _ in 0..additions {
        e = sum(rt, e, Expr::Int(1));
    }
    e
}

#[test]
fn each_addition_of_a_chain_is_a_level(rt: HostRuntime) {
    assert_eq!(rt; levels(chain(&rt, 100)), 101);
}

#[test]
fn a_filter_has_a_level_more_than_its_predicate(rt: HostRuntime) {
    let predicate = or(&rt, Expr::Root, Expr::Context);
    assert_eq!(rt; levels(filter(&rt, Expr::Context, predicate)), 3);
}

#[test]
fn the_test_and_the_source_of_a_some_stand_within_it(rt: HostRuntime) {
    let test = and(&rt, Expr::Root, Expr::Context);
    assert_eq!(rt; levels(some(&rt, Expr::Root, test)), 3);
    let source = and(&rt, Expr::Root, Expr::Context);
    assert_eq!(rt; levels(some(&rt, source, Expr::Root)), 3);
}

#[test]
fn the_order_keys_of_a_flwor_stand_within_it(rt: HostRuntime) {
    let key = sum(&rt, Expr::Int(1), Expr::Int(2));
    assert_eq!(rt; levels(flwor(&rt, key)), 3);
}

#[test]
fn a_child_element_stands_within_its_parent(rt: HostRuntime) {
    assert_eq!(rt; levels(direct(&rt, List::new(rt.alloc()))), 1);
    let child = direct(&rt, List::new(rt.alloc()));
    let parts = list_of(&rt, Part::Child(shared(&rt, child)));
    assert_eq!(rt; levels(direct(&rt, parts)), 2);
}

fn pattern_step(rt: &(impl Abort + AllocGlobal), predicate: Expr) -> PatternStep {
    PatternStep {
        axis: Axis::Child,
        test: Test::Node,
        quiet: list_of(rt, predicate),
        deep: false,
    }
}

fn pattern_levels(rooted: bool, steps: List<PatternStep>) -> u32 {
    let pattern = Pattern { rooted, steps };
    let levels = nest_pattern(&pattern);
    drop(pattern);
    levels
}

#[test]
fn a_pattern_has_the_levels_of_its_deepest_step(rt: HostRuntime) {
    assert_eq!(rt; pattern_levels(true, List::new(rt.alloc())), 1);
    let predicate = or(&rt, Expr::Root, Expr::Context);
    let only = list_of(&rt, pattern_step(&rt, predicate));
    assert_eq!(rt; pattern_levels(false, only), 2);
    let deep = pattern_step(&rt, or(&rt, Expr::Root, Expr::Context));
    let steps = list_of_two(&rt, deep, pattern_step(&rt, Expr::Int(1)));
    assert_eq!(rt; pattern_levels(false, steps), 2);
}

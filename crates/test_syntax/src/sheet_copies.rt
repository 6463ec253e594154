// Copies of the parts of stylesheets.
use crate::made::{list_of, name, text};
use std::alloc::AllocGlobal;
use std::process::Abort;
use xt_names::List;
use xt_sheets::{
    Bound, Global, Instr, KeyRule, Level, Rule, Sheet, SheetFunction, Template, Value,
    copy_global_list, copy_key_rule_list, copy_level_list, copy_rule_list,
    copy_sheet_function_list, copy_sheet_list, copy_template_list,
};
use xt_syntax::{Expr, Pattern};

fn bound(rt: &(impl Abort + AllocGlobal), local: &str) -> Bound {
    Bound {
        name: name(rt, local),
        kind: None,
        value: Value::EmptyText,
        tunnel: false,
    }
}

fn template(rt: &(impl Abort + AllocGlobal), local: &str) -> Template {
    Template {
        name: Some(name(rt, local)),
        params: List::new(rt.alloc()),
        kind: None,
        body: list_of(rt, Instr::Chars(text(rt, "a"))),
        has_match: true,
    }
}

fn is_template(template: &Template, local: &str) -> bool {
    template.has_match
        && template.body.len() == 1
        && matches!(&template.name, Some(name) if name.local.is(local))
}

#[test]
fn a_template_is_copied(rt: HostRuntime) {
    let made = template(&rt, "t");
    let copy = made.copy().expect(&rt, "memory");
    drop(made);
    assert!(rt; is_template(&copy, "t"));
    drop(copy);
}

#[test]
fn templates_are_copied(rt: HostRuntime) {
    let items = list_of(&rt, template(&rt, "t"));
    let copy = copy_template_list(&items).expect(&rt, "memory");
    drop(items);
    assert!(rt; matches!(copy.as_slice(), [only] if is_template(only, "t")));
    drop(copy);
}

fn root_pattern(rt: &(impl Abort + AllocGlobal)) -> Pattern {
    Pattern {
        rooted: true,
        steps: List::new(rt.alloc()),
    }
}

fn rule(rt: &(impl Abort + AllocGlobal)) -> Rule {
    Rule {
        template: 3,
        pattern: root_pattern(rt),
        modes: list_of(rt, 2),
        precedence: 4,
        priority: -500,
    }
}

fn is_rule(rule: &Rule) -> bool {
    rule.template == 3
        && rule.pattern.rooted
        && matches!(rule.modes.as_slice(), [2])
        && rule.precedence == 4
        && rule.priority == -500
}

#[test]
fn a_rule_is_copied(rt: HostRuntime) {
    let made = rule(&rt);
    let copy = made.copy().expect(&rt, "memory");
    drop(made);
    assert!(rt; is_rule(&copy));
    drop(copy);
}

#[test]
fn rules_are_copied(rt: HostRuntime) {
    let items = list_of(&rt, rule(&rt));
    let copy = copy_rule_list(&items).expect(&rt, "memory");
    drop(items);
    assert!(rt; matches!(copy.as_slice(), [only] if is_rule(only)));
    drop(copy);
}

fn function(rt: &(impl Abort + AllocGlobal), local: &str) -> SheetFunction {
    SheetFunction {
        name: name(rt, local),
        params: list_of(rt, bound(rt, "p")),
        kind: None,
        body: List::new(rt.alloc()),
    }
}

fn is_function(function: &SheetFunction, local: &str) -> bool {
    function.name.local.is(local) && function.params.len() == 1 && function.body.is_empty()
}

#[test]
fn a_function_is_copied(rt: HostRuntime) {
    let made = function(&rt, "f");
    let copy = made.copy().expect(&rt, "memory");
    drop(made);
    assert!(rt; is_function(&copy, "f"));
    drop(copy);
}

#[test]
fn functions_are_copied(rt: HostRuntime) {
    let items = list_of(&rt, function(&rt, "f"));
    let copy = copy_sheet_function_list(&items).expect(&rt, "memory");
    drop(items);
    assert!(rt; matches!(copy.as_slice(), [only] if is_function(only, "f")));
    drop(copy);
}

fn key_rule(rt: &(impl Abort + AllocGlobal), local: &str) -> KeyRule {
    KeyRule {
        name: name(rt, local),
        pattern: root_pattern(rt),
        key: Expr::Context,
    }
}

fn is_key_rule(rule: &KeyRule, local: &str) -> bool {
    rule.name.local.is(local) && rule.pattern.rooted && matches!(rule.key, Expr::Context)
}

#[test]
fn a_key_is_copied(rt: HostRuntime) {
    let made = key_rule(&rt, "k");
    let copy = made.copy().expect(&rt, "memory");
    drop(made);
    assert!(rt; is_key_rule(&copy, "k"));
    drop(copy);
}

#[test]
fn keys_are_copied(rt: HostRuntime) {
    let items = list_of(&rt, key_rule(&rt, "k"));
    let copy = copy_key_rule_list(&items).expect(&rt, "memory");
    drop(items);
    assert!(rt; matches!(copy.as_slice(), [only] if is_key_rule(only, "k")));
    drop(copy);
}

fn global(rt: &(impl Abort + AllocGlobal), local: &str) -> Global {
    Global {
        bound: bound(rt, local),
        param: true,
    }
}

fn is_global(global: &Global, local: &str) -> bool {
    global.param
        && global.bound.name.local.is(local)
        && matches!(global.bound.value, Value::EmptyText)
}

#[test]
fn a_global_parameter_is_copied(rt: HostRuntime) {
    let made = global(&rt, "v");
    let copy = made.copy().expect(&rt, "memory");
    drop(made);
    assert!(rt; is_global(&copy, "v"));
    drop(copy);
}

#[test]
fn global_parameters_are_copied(rt: HostRuntime) {
    let items = list_of(&rt, global(&rt, "v"));
    let copy = copy_global_list(&items).expect(&rt, "memory");
    drop(items);
    assert!(rt; matches!(copy.as_slice(), [only] if is_global(only, "v")));
    drop(copy);
}

fn is_level(level: &Level, first: u32) -> bool {
    level.first == first
}

#[test]
fn levels_are_copied(rt: HostRuntime) {
    let items = list_of(&rt, Level { first: 5 });
    let copy = copy_level_list(&items).expect(&rt, "memory");
    drop(items);
    assert!(rt; matches!(copy.as_slice(), [only] if is_level(only, 5)));
    drop(copy);
}

pub(crate) fn sheet(rt: &(impl Abort + AllocGlobal)) -> Sheet {
    Sheet {
        levels: list_of(rt, Level { first: 5 }),
        globals: list_of(rt, global(rt, "v")),
        templates: list_of(rt, template(rt, "t")),
        rules: list_of(rt, rule(rt)),
        functions: list_of(rt, function(rt, "f")),
        keys: list_of(rt, key_rule(rt, "k")),
        modes: list_of(rt, name(rt, "")),
        space: List::new(rt.alloc()),
        omit: true,
    }
}

// whether it is the stylesheet above
fn is_sheet(sheet: &Sheet) -> bool {
    sheet.omit
        && sheet.levels.len() == 1
        && sheet.modes.len() == 1
        && sheet.space.is_empty()
        && has_declarations(sheet)
}

fn has_declarations(sheet: &Sheet) -> bool {
    matches!(sheet.globals.as_slice(), [only] if is_global(only, "v"))
        && matches!(sheet.templates.as_slice(), [only] if is_template(only, "t"))
        && matches!(sheet.rules.as_slice(), [only] if is_rule(only))
        && matches!(sheet.functions.as_slice(), [only] if is_function(only, "f"))
        && matches!(sheet.keys.as_slice(), [only] if is_key_rule(only, "k"))
}

#[test]
fn a_stylesheet_is_copied(rt: HostRuntime) {
    let made = sheet(&rt);
    let copy = made.copy().expect(&rt, "memory");
    drop(made);
    assert!(rt; is_sheet(&copy));
    drop(copy);
}

#[test]
fn stylesheets_are_copied(rt: HostRuntime) {
    let items = list_of(&rt, sheet(&rt));
    let copy = copy_sheet_list(&items).expect(&rt, "memory");
    drop(items);
    assert!(rt; matches!(copy.as_slice(), [only] if is_sheet(only)));
    drop(copy);
}

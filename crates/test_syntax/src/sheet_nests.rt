// How deep parameters and stylesheets nest.
use crate::instrs::{Value, bound, chars, select};
use crate::made::{list_of, shared};
use crate::sheet_copies::sheet;
use closed_sheets::sheet_forms::{nest_bound, nest_sheet};

#[test]
fn a_selected_parameter_is_no_level(rt: HostRuntime) {
    let made = bound(&rt, "p", select(&rt, "e"));
    assert_eq!(rt; nest_bound(&made), 0);
    drop(made);
}

#[test]
fn a_parameter_has_the_levels_of_its_content(rt: HostRuntime) {
    let content = list_of(&rt, chars(&rt, "a"));
    let made = bound(&rt, "p", Value::Body(shared(&rt, content)));
    assert_eq!(rt; nest_bound(&made), 1);
    drop(made);
}

// Its template holds one text, and its function nothing.
#[test]
fn a_stylesheet_has_the_levels_of_its_templates(rt: HostRuntime) {
    let made = sheet(&rt);
    assert_eq!(rt; nest_sheet(&made), 1);
    drop(made);
}

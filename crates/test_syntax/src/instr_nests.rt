// How deep instructions nest, in which a text stands for each expression and pattern.
use crate::instrs::{Bound, Instr, Value, bound, chars, when};
use crate::made::{list_of, list_of_two, shared, with};
use closed_sheets::sheet_forms::{nest_body, nest_instruction};
use std::alloc::AllocGlobal;
use std::process::Abort;
use xt_names::List;

fn levels(instr: Instr) -> u32 {
    let levels = nest_instruction(&instr);
    drop(instr);
    levels
}

fn body_levels(body: List<Instr>) -> u32 {
    let levels = nest_body(body.as_slice());
    drop(body);
    levels
}

fn variable(rt: &(impl Abort + AllocGlobal)) -> Instr {
    Instr::Variable(bound(rt, "v", Value::EmptyText))
}

// so many variables, and a text after them
fn after_variables(rt: &(impl Abort + AllocGlobal), variables: u32) -> List<Instr> {
    let mut body = List::new(rt.alloc());
    for _ in 0..variables {
        body.push(variable(rt)).expect(rt, "memory");
    }
    with(rt, body, chars(rt, "a"))
}

#[test]
fn each_variable_before_an_instruction_adds_a_level(rt: HostRuntime) {
    assert_eq!(rt; levels(chars(&rt, "a")), 1);
    assert_eq!(rt; body_levels(List::new(rt.alloc())), 0);
    assert_eq!(rt; body_levels(after_variables(&rt, 3)), 4);
    assert_eq!(rt;
        body_levels(list_of_two(&rt, chars(&rt, "a"), variable(&rt))),
        1
    );
}

// a variable or parameter with this content
fn filled(rt: &(impl Abort + AllocGlobal), body: List<Instr>) -> Bound {
    bound(rt, "v", Value::Body(shared(rt, body)))
}

#[test]
fn content_stands_within_its_variable_or_call(rt: HostRuntime) {
    let variable = Instr::Variable(filled(&rt, after_variables(&rt, 1)));
    assert_eq!(rt; levels(variable), 3);
    let params = list_of(&rt, filled(&rt, list_of(&rt, chars(&rt, "a"))));
    assert_eq!(rt; levels(Instr::CallTemplate(0, shared(&rt, params))), 2);
}

#[test]
fn a_when_is_no_level(rt: HostRuntime) {
    let whens = list_of(&rt, when(&rt, "t", chars(&rt, "a")));
    let other = List::new(rt.alloc());
    assert_eq!(rt;
        levels(Instr::Choose(shared(&rt, whens), shared(&rt, other))),
        2
    );
}

fn copies(rt: &(impl Abort + AllocGlobal), count: u32) -> Instr {
    let mut instr = chars(rt, "a");
    for _ in 0..count {
        instr = Instr::Copy(shared(rt, list_of(rt, instr)));
    }
    instr
}

#[test]
fn copies_within_each_other_are_counted(rt: HostRuntime) {
    assert_eq!(rt; levels(copies(&rt, 400)), 401);
}

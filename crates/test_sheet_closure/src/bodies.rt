// One instruction more makes a stylesheet that is no more closed.
use crate::made::{call, is_closed, name, shared, text, with_body};
use std::alloc::AllocGlobal;
use std::mem::replace;
use std::process::Abort;
use xt_names::{List, Shared};
use xt_sheets::{Bound, Instr, ModeUse, Sheet, Value};
use xt_syntax::Expr;

#[derive(Clone, Copy)]
enum More {
    Text,
    OtherVariable,
    Group,
    KeyOfVariable,
    BothSources,
    NoValue,
    PassedTwice,
    PassedRequired,
    OtherPlace,
    NoNamedTemplate,
    OtherMode,
    Levels(u32),
    DeepExpression(u32),
}

fn body(rt: &(impl Abort + AllocGlobal), instr: Instr) -> Shared<List<Instr>> {
    let mut all = List::new(rt.alloc());
    all.push(instr).expect(rt, "memory");
    Shared::make(rt.alloc(), all).expect(rt, "memory")
}

fn bound(rt: &(impl Abort + AllocGlobal), local: &str, value: Value) -> Bound {
    Bound {
        name: name(rt, "", local),
        kind: None,
        value,
        tunnel: false,
    }
}

fn passed(rt: &(impl Abort + AllocGlobal), twice: bool, value: Value) -> Shared<List<Bound>> {
    let mut all = List::new(rt.alloc());
    all.push(bound(rt, "x", value)).expect(rt, "memory");
    if twice {
        all.push(bound(rt, "x", Value::EmptyText))
            .expect(rt, "memory");
    }
    Shared::make(rt.alloc(), all).expect(rt, "memory")
}

fn none_passed(rt: &(impl Abort + AllocGlobal)) -> Shared<List<Bound>> {
    Shared::make(rt.alloc(), List::new(rt.alloc())).expect(rt, "memory")
}

fn sequence(rt: &(impl Abort + AllocGlobal), e: Expr) -> Instr {
    Instr::Sequence(shared(rt, e))
}

fn copies(rt: &(impl Abort + AllocGlobal), levels: u32) -> Instr {
    let mut made = Instr::Chars(text(rt, "a"));
    for _ in 1..levels {
        made = Instr::Copy(body(rt, made));
    }
    made
}

fn minuses(rt: &(impl Abort + AllocGlobal), levels: u32) -> Expr {
    let mut made = Expr::Int(1);
    for _ in 1..levels {
        made = Expr::Minus(shared(rt, made));
    }
    made
}

fn made(rt: &(impl Abort + AllocGlobal), more: More) -> Instr {
    match more {
        More::Text => Instr::Chars(text(rt, "a")),
        More::OtherVariable => sequence(rt, Expr::Var(name(rt, "", "y"))),
        More::Group => sequence(rt, call(rt, "current-group", false)),
        More::KeyOfVariable => sequence(rt, call(rt, "key", true)),
        More::BothSources => Instr::Comment(
            Some(shared(rt, Expr::Int(1))),
            body(rt, Instr::Chars(text(rt, "a"))),
        ),
        More::NoValue => Instr::Variable(bound(rt, "x", Value::Required)),
        More::PassedTwice => Instr::NextMatch(passed(rt, true, Value::EmptyText)),
        More::PassedRequired => Instr::NextMatch(passed(rt, false, Value::Required)),
        More::OtherPlace => Instr::CallTemplate(9, none_passed(rt)),
        More::NoNamedTemplate => Instr::CallTemplate(1, none_passed(rt)),
        More::OtherMode => {
            let sorts = Shared::make(rt.alloc(), List::new(rt.alloc())).expect(rt, "memory");
            Instr::Apply(None, ModeUse::Number(9), sorts, none_passed(rt))
        }
        More::Levels(levels) => copies(rt, levels),
        More::DeepExpression(levels) => sequence(rt, minuses(rt, levels)),
    }
}

fn push_instr(rt: &(impl Abort + AllocGlobal), sheet: &mut Sheet, instr: Instr) {
    let templates = replace(&mut sheet.templates, List::new(rt.alloc()));
    let mut templates = templates.into_vec();
    if templates.len() < 3 {
        panic!(rt; "three templates");
    }
    templates[1].body.push(instr).expect(rt, "memory");
    sheet.templates = List::of_vec(templates);
}

fn is_closed_with(rt: &(impl Abort + AllocGlobal), more: More) -> bool {
    let mut sheet = with_body(rt, "<xsl:sequence select='1'/>");
    push_instr(rt, &mut sheet, made(rt, more));
    is_closed(rt, sheet)
}

#[test]
fn instructions_that_may_stand(rt: HostRuntime) {
    let cases = [
        ("a text", More::Text),
        ("40 levels", More::Levels(40)),
        ("40 levels of an expression", More::DeepExpression(40)),
    ];
    for (what, more) in cases {
        assert!(rt; is_closed_with(&rt, more), "{what}");
    }
}

#[test]
fn instructions_that_may_not_stand(rt: HostRuntime) {
    let cases = [
        ("a variable that is not declared", More::OtherVariable),
        ("a group outside of one", More::Group),
        ("a key whose name is no literal", More::KeyOfVariable),
        ("select beside content", More::BothSources),
        ("a variable without value", More::NoValue),
        ("a parameter that is passed twice", More::PassedTwice),
        (
            "a parameter that is passed without value",
            More::PassedRequired,
        ),
        ("no template", More::OtherPlace),
        ("a template without name", More::NoNamedTemplate),
        ("no mode", More::OtherMode),
        ("41 levels", More::Levels(41)),
        ("41 levels of an expression", More::DeepExpression(41)),
    ];
    for (what, more) in cases {
        assert!(rt; !is_closed_with(&rt, more), "{what}");
    }
}

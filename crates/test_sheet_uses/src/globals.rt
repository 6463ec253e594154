// On which globals each depends (XSLT 2.0, 9.5).
use crate::told::{expr, name, text};
use global_needs::global_needs;
use std::alloc::AllocGlobal;
use std::process::Abort;
use xt_names::{ExprName, List, Shared};
use xt_sheets::{Bound, Global, Instr, ModeUse, Rule, Sheet, SheetFunction, Template, Value};
use xt_syntax::{Expr, Pattern};

fn shared(rt: &(impl Abort + AllocGlobal), words: &str) -> Shared<Expr> {
    Shared::make(rt.alloc(), expr(rt, words)).expect(rt, "memory")
}

fn function_name(rt: &(impl Abort + AllocGlobal), local: &str) -> ExprName {
    ExprName {
        uri: text(rt, "http://www.w3.org/2005/xpath-functions"),
        local: text(rt, local),
    }
}

fn apply(rt: &(impl Abort + AllocGlobal), mode: ModeUse) -> Instr {
    let sorts = Shared::make(rt.alloc(), List::new(rt.alloc())).expect(rt, "memory");
    let params = Shared::make(rt.alloc(), List::new(rt.alloc())).expect(rt, "memory");
    Instr::Apply(None, mode, sorts, params)
}

fn call(rt: &(impl Abort + AllocGlobal), number: u32) -> Instr {
    let params = Shared::make(rt.alloc(), List::new(rt.alloc())).expect(rt, "memory");
    Instr::CallTemplate(number, params)
}

fn body_of(rt: &(impl Abort + AllocGlobal), instr: Instr) -> List<Instr> {
    let mut body = List::new(rt.alloc());
    body.push(instr).expect(rt, "memory");
    body
}

fn empty_sheet(rt: &(impl Abort + AllocGlobal)) -> Sheet {
    let mut modes = List::new(rt.alloc());
    modes.push(name(rt, "")).expect(rt, "memory");
    modes.push(name(rt, "m")).expect(rt, "memory");
    Sheet {
        levels: List::new(rt.alloc()),
        globals: List::new(rt.alloc()),
        templates: List::new(rt.alloc()),
        rules: List::new(rt.alloc()),
        functions: List::new(rt.alloc()),
        keys: List::new(rt.alloc()),
        modes,
        space: List::new(rt.alloc()),
        omit: false,
    }
}

fn add_global(rt: &(impl Abort + AllocGlobal), sheet: &mut Sheet, local: &str, words: &str) {
    let bound = Bound {
        name: name(rt, local),
        kind: None,
        value: Value::Select(shared(rt, words)),
        tunnel: false,
    };
    let global = Global {
        bound,
        param: false,
    };
    sheet.globals.push(global).expect(rt, "memory");
}

fn add_function(rt: &(impl Abort + AllocGlobal), sheet: &mut Sheet, local: &str, instr: Instr) {
    let function = SheetFunction {
        name: function_name(rt, local),
        params: List::new(rt.alloc()),
        kind: None,
        body: body_of(rt, instr),
    };
    sheet.functions.push(function).expect(rt, "memory");
}

// The template with this number, with a rule in each of the modes.
fn add_template(
    rt: &(impl Abort + AllocGlobal),
    sheet: &mut Sheet,
    place: u32,
    instr: Instr,
    modes: &[u32],
) {
    let template = Template {
        name: None,
        params: List::new(rt.alloc()),
        kind: None,
        body: body_of(rt, instr),
        has_match: true,
    };
    sheet.templates.push(template).expect(rt, "memory");
    let mut numbers = List::new(rt.alloc());
    for mode in modes {
        numbers.push(*mode).expect(rt, "memory");
    }
    let pattern = Pattern {
        rooted: true,
        steps: List::new(rt.alloc()),
    };
    let rule = Rule {
        template: place,
        pattern,
        modes: numbers,
        precedence: 1,
        priority: 0,
    };
    sheet.rules.push(rule).expect(rt, "memory");
}

fn depend(rt: &(impl Abort + AllocGlobal), sheet: Sheet, wanted: &[&[usize]]) -> bool {
    let found = global_needs(rt.alloc(), &sheet).expect(rt, "memory");
    let mut same = found.len() == wanted.len();
    for (needs, other) in found.as_slice().iter().zip(wanted) {
        same = same && needs.as_slice() == *other;
    }
    drop(found);
    drop(sheet);
    same
}

#[test]
fn what_a_global_names(rt: HostRuntime) {
    let mut sheet = empty_sheet(&rt);
    add_global(&rt, &mut sheet, "x", "$y + $z + $y");
    add_global(&rt, &mut sheet, "y", "for $x in 1 return $x");
    add_global(&rt, &mut sheet, "z", "$z");
    assert!(rt; depend(&rt, sheet, &[&[1, 2], &[], &[2]]), "by name");
}

// x calls f, f applies templates in the default mode, and a rule of that mode names y. What y names in
// turn is no dependence of x.
#[test]
fn what_a_global_reaches(rt: HostRuntime) {
    let mut sheet = empty_sheet(&rt);
    add_global(&rt, &mut sheet, "x", "f()");
    add_global(&rt, &mut sheet, "y", "$z");
    add_global(&rt, &mut sheet, "z", "1");
    add_function(&rt, &mut sheet, "f", apply(&rt, ModeUse::Current));
    add_template(&rt, &mut sheet, 0, Instr::Sequence(shared(&rt, "$y")), &[0]);
    add_template(&rt, &mut sheet, 1, Instr::Sequence(shared(&rt, "$z")), &[1]);
    assert!(rt;
        depend(&rt, sheet, &[&[1], &[2], &[]]),
        "by a function and a rule"
    );
}

// The current mode of a rule is reached already: x reaches the rules of m alone, and of them a template
// that is called by name and applies templates in the current mode.
#[test]
fn the_current_mode(rt: HostRuntime) {
    let mut sheet = empty_sheet(&rt);
    add_global(&rt, &mut sheet, "x", "f()");
    add_global(&rt, &mut sheet, "y", "g()");
    add_global(&rt, &mut sheet, "z", "1");
    add_function(&rt, &mut sheet, "f", apply(&rt, ModeUse::Number(1)));
    add_function(&rt, &mut sheet, "g", call(&rt, 1));
    add_template(&rt, &mut sheet, 0, call(&rt, 1), &[1]);
    add_template(&rt, &mut sheet, 1, apply(&rt, ModeUse::Current), &[]);
    add_template(&rt, &mut sheet, 2, Instr::Sequence(shared(&rt, "$z")), &[0]);
    assert!(rt;
        depend(&rt, sheet, &[&[], &[2], &[]]),
        "in a rule, and in a function"
    );
}

// What sequence constructors use.
use crate::told::{expr, name, told};
use name_rules::VariableScope;
use sheet_uses::{push_body_uses, push_callee_uses};
use std::alloc::AllocGlobal;
use std::process::Abort;
use xt_names::{List, Shared};
use xt_sheets::{Bound, Instr, ModeUse, Value};
use xt_syntax::Expr;

fn shared(rt: &(impl Abort + AllocGlobal), words: &str) -> Shared<Expr> {
    Shared::make(rt.alloc(), expr(rt, words)).expect(rt, "memory")
}

fn bound(rt: &(impl Abort + AllocGlobal), local: &str, words: &str, tunnel: bool) -> Bound {
    Bound {
        name: name(rt, local),
        kind: None,
        value: Value::Select(shared(rt, words)),
        tunnel,
    }
}

fn push(rt: &(impl Abort + AllocGlobal), body: &mut List<Instr>, instr: Instr) {
    body.push(instr).expect(rt, "memory");
}

fn body_told(rt: &(impl Abort + AllocGlobal), body: List<Instr>) -> String {
    let scope = VariableScope::new(rt.alloc()).expect(rt, "memory");
    let mut found = List::new(rt.alloc());
    push_body_uses(body.as_slice(), &scope, &mut found).expect(rt, "memory");
    let out = told(rt, &found);
    drop(found);
    drop(body);
    drop(scope);
    out
}

// A variable is seen by what comes after it, and not by its own value.
#[test]
fn variables_of_a_body(rt: HostRuntime) {
    let mut inner = List::new(rt.alloc());
    push(
        &rt,
        &mut inner,
        Instr::Variable(bound(&rt, "y", "$x + $y", false)),
    );
    push(&rt, &mut inner, Instr::Sequence(shared(&rt, "$x, $y, $z")));
    let mut body = List::new(rt.alloc());
    push(
        &rt,
        &mut body,
        Instr::Variable(bound(&rt, "x", "$x", false)),
    );
    push(
        &rt,
        &mut body,
        Instr::Copy(Shared::make(rt.alloc(), inner).expect(&rt, "memory")),
    );
    push(&rt, &mut body, Instr::CopyOf(shared(&rt, "$y, $x")));
    let out = body_told(&rt, body);
    assert_eq!(rt; out.as_str(), "$x, $y, $z, $y");
    drop(out);
}

// The parameters that are passed bind nothing, and tunnel parameters are not told by name.
#[test]
fn templates_and_modes(rt: HostRuntime) {
    let mut passed = List::new(rt.alloc());
    passed
        .push(bound(&rt, "p", "$v", false))
        .expect(&rt, "memory");
    passed
        .push(bound(&rt, "q", "$p", true))
        .expect(&rt, "memory");
    let passed = Shared::make(rt.alloc(), passed).expect(&rt, "memory");
    let sorts = Shared::make(rt.alloc(), List::new(rt.alloc())).expect(&rt, "memory");
    let params = Shared::make(rt.alloc(), List::new(rt.alloc())).expect(&rt, "memory");
    let mut body = List::new(rt.alloc());
    push(&rt, &mut body, Instr::CallTemplate(3, passed));
    push(
        &rt,
        &mut body,
        Instr::Apply(Some(shared(&rt, "a[$s]")), ModeUse::Current, sorts, params),
    );
    let out = body_told(&rt, body);
    assert_eq!(rt; out.as_str(), "call 3( p), $v, $p, apply current, $s");
    drop(out);
}

// The default of a parameter sees those before it.
#[test]
fn parameters_of_a_callee(rt: HostRuntime) {
    let mut params = List::new(rt.alloc());
    params
        .push(bound(&rt, "p", "$p + $q", false))
        .expect(&rt, "memory");
    params
        .push(bound(&rt, "q", "$p + $q", false))
        .expect(&rt, "memory");
    let mut body = List::new(rt.alloc());
    push(&rt, &mut body, Instr::Sequence(shared(&rt, "$p, $q, $r")));
    let scope = VariableScope::new(rt.alloc()).expect(&rt, "memory");
    let mut found = List::new(rt.alloc());
    let pushed = push_callee_uses(params.as_slice(), body.as_slice(), &scope, &mut found);
    pushed.expect(&rt, "memory");
    let out = told(&rt, &found);
    assert_eq!(rt; out.as_str(), "$p, $q, $q, $r");
    drop(out);
    drop(found);
    drop(body);
    drop(params);
    drop(scope);
}

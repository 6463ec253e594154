// Parameters that calls pass, and the rule that a stylesheet is refused for.
use crate::made::{codes_told, name};
use sheet_rules::wide_rules::{Parameters, first_wide, parameters_of, push_broken_passing};
use sheet_uses::Use;
use std::alloc::AllocGlobal;
use std::process::Abort;
use xt_names::{Code, List, QueryStaticCode, SheetStaticCode};
use xt_sheets::{Bound, Value};

fn param(rt: &(impl Abort + AllocGlobal), local: &str, required: bool, tunnel: bool) -> Bound {
    let value = if required {
        Value::Required
    } else {
        Value::EmptyText
    };
    Bound {
        name: name(rt, "", local),
        kind: None,
        value,
        tunnel,
    }
}

// The parameter a, the parameter b, which is required, and the tunnel parameter t, which is too.
fn parameters(rt: &(impl Abort + AllocGlobal)) -> Parameters {
    let mut params = List::new(rt.alloc());
    params
        .push(param(rt, "a", false, false))
        .expect(rt, "memory");
    params
        .push(param(rt, "b", true, false))
        .expect(rt, "memory");
    params.push(param(rt, "t", true, true)).expect(rt, "memory");
    let made = parameters_of(rt.alloc(), params.as_slice()).expect(rt, "memory");
    drop(params);
    made
}

fn call(rt: &(impl Abort + AllocGlobal), number: u32, passed: &[&str]) -> Use {
    let mut names = List::new(rt.alloc());
    for local in passed {
        names.push(name(rt, "", local)).expect(rt, "memory");
    }
    Use::Template(number, names)
}

fn is_broken(rt: &(impl Abort + AllocGlobal), number: u32, passed: &[&str], wanted: &str) -> bool {
    let templates = [parameters(rt)];
    let uses = [call(rt, number, passed)];
    let mut codes = List::new(rt.alloc());
    push_broken_passing(&templates, &uses, &mut codes).expect(rt, "memory");
    drop(templates);
    drop(uses);
    let told = codes_told(rt, &codes);
    drop(codes);
    let same = told.as_str() == wanted;
    drop(told);
    same
}

#[test]
fn parameters_of_calls(rt: HostRuntime) {
    assert!(rt; is_broken(&rt, 0, &["a", "b"], ""), "all");
    assert!(rt; is_broken(&rt, 0, &["b"], ""), "what is required");
    assert!(rt; is_broken(&rt, 0, &["a"], "XTSE0690"), "too few");
    assert!(rt;
        is_broken(&rt, 0, &["a", "b", "c"], "XTSE0680"),
        "one in vain"
    );
    assert!(rt;
        is_broken(&rt, 0, &["b", "t"], "XTSE0680"),
        "no ordinary one"
    );
    assert!(rt; is_broken(&rt, 0, &["c"], "XTSE0680 XTSE0690"), "both");
    assert!(rt; is_broken(&rt, 1, &["c"], ""), "no such template");
}

const LAST: Code = Code::SheetStatic(SheetStaticCode::XTSE1560);

const TWICE: Code = Code::SheetStatic(SheetStaticCode::XTSE0770);

const CALL: Code = Code::QueryStatic(QueryStaticCode::XPST0017);

const CIRCLE: Code = Code::SheetStatic(SheetStaticCode::XTDE0640);

const KEY: Code = Code::SheetStatic(SheetStaticCode::XTDE1260);

const PLACE: Code = Code::SheetStatic(SheetStaticCode::XTSE0010);

#[test]
fn the_first_rule(rt: HostRuntime) {
    assert!(rt; first_wide(&[LAST, TWICE, CALL]) == Some(CALL), "the third");
    assert!(rt; first_wide(&[KEY, CIRCLE]) == Some(CIRCLE), "the second");
    assert!(rt; first_wide(&[LAST, PLACE]) == Some(LAST), "the last");
    assert!(rt; first_wide(&[PLACE]) == None, "of a module alone");
    assert!(rt; first_wide(&[]) == None, "none");
}

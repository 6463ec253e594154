// Which variables and functions are in scope.
use crate::made::{
    FN, LOCAL, bind, both, call_0, call_1, call_2, direct, element, flwor, for_at, for_in, let_be,
    list_of, name_in, shared, some_of, two_of, var, where_order,
};
use name_rules::{Functions, VariableScope, broken_names};
use std::alloc::AllocGlobal;
use std::process::Abort;
use xt_names::{Code, QueryStaticCode};
use xt_syntax::{Arm, Expr};

// What is told of an expression where `$g` is in scope and `local:f` of one parameter is declared: 8 and 17 for the two
// codes, 0 for none.
pub(crate) fn told(rt: &(impl Abort + AllocGlobal), e: Expr) -> u8 {
    let scope = VariableScope::new(rt.alloc()).expect(rt, "memory");
    let scope = scope.with(name_in(rt, "", "g")).expect(rt, "memory");
    let mut functions = Functions::new(rt.alloc());
    let name = name_in(rt, LOCAL, "f");
    let _new = functions.declare(&name, 1).expect(rt, "memory");
    let fault = broken_names(&e, &functions, &scope).expect(rt, "memory");
    drop(name);
    drop(e);
    drop(functions);
    drop(scope);
    number(fault)
}

fn number(fault: Option<Code>) -> u8 {
    match fault {
        None => 0,
        Some(Code::QueryStatic(QueryStaticCode::XPST0008)) => 8,
        Some(Code::QueryStatic(QueryStaticCode::XPST0017)) => 17,
        Some(_) => 99,
    }
}

fn one() -> Expr {
    Expr::Int(1)
}

#[test]
fn a_variable_is_in_scope_or_not(rt: HostRuntime) {
    assert_eq!(rt; told(&rt, one()), 0);
    assert_eq!(rt; told(&rt, var(&rt, "g")), 0);
    assert_eq!(rt; told(&rt, var(&rt, "x")), 8);
    assert_eq!(rt; told(&rt, Expr::Var(name_in(&rt, "urn:u", "g"))), 8);
    assert_eq!(rt; told(&rt, both(&rt, var(&rt, "g"), var(&rt, "x"))), 8);
}

#[test]
fn a_for_binds_behind_its_source(rt: HostRuntime) {
    let x = for_in(&rt, "x", var(&rt, "g"));
    assert_eq!(rt; told(&rt, flwor(&rt, list_of(&rt, x), var(&rt, "x"))), 0);
    let x = for_in(&rt, "x", var(&rt, "x"));
    assert_eq!(rt; told(&rt, flwor(&rt, list_of(&rt, x), one())), 8);
    let x = for_in(&rt, "x", one());
    let whole = flwor(&rt, list_of(&rt, x), one());
    assert_eq!(rt; told(&rt, both(&rt, whole, var(&rt, "x"))), 8);
    let g = for_in(&rt, "g", var(&rt, "g"));
    assert_eq!(rt; told(&rt, flwor(&rt, list_of(&rt, g), var(&rt, "g"))), 0);
}

#[test]
fn a_position_is_bound_with_its_item(rt: HostRuntime) {
    let x = for_at(&rt, "x", "p", var(&rt, "g"));
    let body = both(&rt, var(&rt, "x"), var(&rt, "p"));
    assert_eq!(rt; told(&rt, flwor(&rt, list_of(&rt, x), body)), 0);
    let x = for_at(&rt, "x", "p", var(&rt, "p"));
    assert_eq!(rt; told(&rt, flwor(&rt, list_of(&rt, x), one())), 8);
}

#[test]
fn clauses_see_those_before_them(rt: HostRuntime) {
    let clauses = two_of(
        &rt,
        let_be(&rt, "x", one()),
        for_in(&rt, "y", var(&rt, "x")),
    );
    assert_eq!(rt; told(&rt, flwor(&rt, clauses, var(&rt, "y"))), 0);
    let clauses = two_of(
        &rt,
        let_be(&rt, "y", var(&rt, "x")),
        let_be(&rt, "x", one()),
    );
    assert_eq!(rt; told(&rt, flwor(&rt, clauses, one())), 8);
}

#[test]
fn where_and_order_see_all_clauses(rt: HostRuntime) {
    let x = let_be(&rt, "x", one());
    let e = where_order(&rt, x, var(&rt, "x"), var(&rt, "x"), var(&rt, "x"));
    assert_eq!(rt; told(&rt, e), 0);
    let x = let_be(&rt, "x", one());
    assert_eq!(rt;
        told(&rt, where_order(&rt, x, var(&rt, "q"), one(), one())),
        8
    );
    let x = let_be(&rt, "x", one());
    assert_eq!(rt;
        told(&rt, where_order(&rt, x, one(), var(&rt, "q"), one())),
        8
    );
    let x = let_be(&rt, "x", one());
    assert_eq!(rt;
        told(&rt, where_order(&rt, x, one(), one(), var(&rt, "q"))),
        8
    );
}

#[test]
fn quantifiers_bind_one_after_the_other(rt: HostRuntime) {
    let binds = two_of(&rt, bind(&rt, "x", one()), bind(&rt, "y", var(&rt, "x")));
    assert_eq!(rt; told(&rt, some_of(&rt, binds, var(&rt, "y"))), 0);
    let binds = two_of(&rt, bind(&rt, "y", var(&rt, "x")), bind(&rt, "x", one()));
    assert_eq!(rt; told(&rt, some_of(&rt, binds, one())), 8);
    let whole = some_of(&rt, list_of(&rt, bind(&rt, "x", one())), one());
    assert_eq!(rt; told(&rt, both(&rt, whole, var(&rt, "x"))), 8);
}

#[test]
fn a_function_is_told_by_name_and_number(rt: HostRuntime) {
    assert_eq!(rt; told(&rt, call_1(&rt, LOCAL, "f", one())), 0);
    assert_eq!(rt; told(&rt, call_0(&rt, LOCAL, "f")), 17);
    assert_eq!(rt; told(&rt, call_2(&rt, LOCAL, "f", one(), one())), 17);
    assert_eq!(rt; told(&rt, call_1(&rt, LOCAL, "g", one())), 17);
    assert_eq!(rt; told(&rt, call_1(&rt, "", "f", one())), 17);
    assert_eq!(rt; told(&rt, call_1(&rt, FN, "count", one())), 0);
    assert_eq!(rt; told(&rt, call_0(&rt, FN, "count")), 17);
    assert_eq!(rt; told(&rt, call_1(&rt, FN, "doc", one())), 0);
    assert_eq!(rt; told(&rt, call_0(&rt, FN, "current")), 17);
}

#[test]
fn the_first_rule_in_reading_order_is_told(rt: HostRuntime) {
    assert_eq!(rt; told(&rt, call_1(&rt, LOCAL, "f", var(&rt, "x"))), 8);
    assert_eq!(rt; told(&rt, call_1(&rt, LOCAL, "g", var(&rt, "x"))), 17);
    let e = both(&rt, var(&rt, "x"), call_0(&rt, LOCAL, "f"));
    assert_eq!(rt; told(&rt, e), 8);
    let e = both(&rt, call_0(&rt, LOCAL, "f"), var(&rt, "x"));
    assert_eq!(rt; told(&rt, e), 17);
    let x = let_be(&rt, "x", call_0(&rt, LOCAL, "f"));
    assert_eq!(rt; told(&rt, flwor(&rt, list_of(&rt, x), var(&rt, "y"))), 17);
}

#[test]
fn constructors_are_looked_into(rt: HostRuntime) {
    assert_eq!(rt;
        told(&rt, direct(&rt, "k", var(&rt, "g"), var(&rt, "g"))),
        0
    );
    assert_eq!(rt;
        told(
            &rt,
            direct(&rt, "k", var(&rt, "x"), call_0(&rt, LOCAL, "f"))
        ),
        8
    );
    assert_eq!(rt;
        told(&rt, direct(&rt, "k", one(), call_0(&rt, LOCAL, "f"))),
        17
    );
    assert_eq!(rt;
        told(&rt, element(&rt, var(&rt, "x"), call_0(&rt, LOCAL, "f"))),
        8
    );
    assert_eq!(rt; told(&rt, element(&rt, one(), call_0(&rt, LOCAL, "f"))), 17);
}

#[test]
fn other_forms_are_looked_into(rt: HostRuntime) {
    let arm = Arm {
        test: shared(&rt, one()),
        then: shared(&rt, var(&rt, "x")),
    };
    let e = Expr::If(
        shared(&rt, list_of(&rt, arm)),
        shared(&rt, call_0(&rt, LOCAL, "f")),
    );
    assert_eq!(rt; told(&rt, e), 8);
    let e = Expr::Filter(
        shared(&rt, var(&rt, "g")),
        shared(&rt, list_of(&rt, var(&rt, "x"))),
    );
    assert_eq!(rt; told(&rt, e), 8);
    let e = Expr::Is(
        shared(&rt, call_0(&rt, LOCAL, "f")),
        shared(&rt, var(&rt, "x")),
    );
    assert_eq!(rt; told(&rt, e), 17);
    let e = Expr::Slash(shared(&rt, Expr::Root), shared(&rt, var(&rt, "x")));
    assert_eq!(rt; told(&rt, e), 8);
    assert_eq!(rt; told(&rt, Expr::Minus(shared(&rt, var(&rt, "x")))), 8);
}

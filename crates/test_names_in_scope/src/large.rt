// Many bindings.
use crate::made::{flwor, let_be, list_of, var, with};
use crate::names::told;
use std::alloc::AllocGlobal;
use std::process::Abort;
use xt_names::List;
use xt_syntax::{Clause, Expr};

// `let $x := $g` and then `let $x := $x` as often as told.
fn chain(rt: &(impl Abort + AllocGlobal), times: u32) -> List<Clause> {
    let mut clauses = list_of(rt, let_be(rt, "x", var(rt, "g")));
    for _ in 0..times {
        clauses = with(rt, clauses, let_be(rt, "x", var(rt, "x")));
    }
    clauses
}

// One `let` in the other, as deep as told, with the variable in the innermost.
fn nested(rt: &(impl Abort + AllocGlobal), depth: u32, local: &str) -> Expr {
    let mut e = var(rt, local);
    for _ in 0..depth {
        e = flwor(rt, list_of(rt, let_be(rt, "x", Expr::Int(1))), e);
    }
    e
}

#[test]
fn many_clauses_and_deep_ones(rt: HostRuntime) {
    assert_eq!(rt; told(&rt, flwor(&rt, chain(&rt, 10_000), var(&rt, "x"))), 0);
    assert_eq!(rt; told(&rt, flwor(&rt, chain(&rt, 10_000), var(&rt, "y"))), 8);
    assert_eq!(rt; told(&rt, nested(&rt, 400, "x")), 0);
    assert_eq!(rt; told(&rt, nested(&rt, 400, "g")), 0);
    assert_eq!(rt; told(&rt, nested(&rt, 400, "y")), 8);
}

// Expressions made for a test.
use crate::made::{bare_name, list_of, list_of_two, name, shared};
use std::alloc::AllocGlobal;
use std::process::Abort;
use xt_names::{ArithOp, List};
use xt_syntax::{Arm, Axis, Bind, Clause, Expr, Flwor, Order, Part, Test};

pub(crate) fn sum(rt: &(impl Abort + AllocGlobal), a: Expr, b: Expr) -> Expr {
    Expr::Arith(ArithOp::Add, shared(rt, a), shared(rt, b))
}

pub(crate) fn comma(rt: &(impl Abort + AllocGlobal), items: List<Expr>) -> Expr {
    Expr::Comma(shared(rt, items))
}

pub(crate) fn or(rt: &(impl Abort + AllocGlobal), a: Expr, b: Expr) -> Expr {
    Expr::Or(shared(rt, list_of_two(rt, a, b)))
}

pub(crate) fn and(rt: &(impl Abort + AllocGlobal), a: Expr, b: Expr) -> Expr {
    Expr::And(shared(rt, list_of_two(rt, a, b)))
}

pub(crate) fn step(rt: &(impl Abort + AllocGlobal), predicates: List<Expr>) -> Expr {
    Expr::Step(Axis::Child, Test::Node, shared(rt, predicates))
}

// an arm whose test and result are leaves
pub(crate) fn leaf_arm(rt: &(impl Abort + AllocGlobal)) -> Arm {
    Arm {
        test: shared(rt, Expr::Root),
        then: shared(rt, Expr::Int(1)),
    }
}

pub(crate) fn if_of(rt: &(impl Abort + AllocGlobal), arms: List<Arm>, other: Expr) -> Expr {
    Expr::If(shared(rt, arms), shared(rt, other))
}

// `text { content }`
pub(crate) fn text_of(rt: &(impl Abort + AllocGlobal), content: Expr) -> Expr {
    Expr::TextC(shared(rt, content))
}

pub(crate) fn filter(rt: &(impl Abort + AllocGlobal), of: Expr, predicate: Expr) -> Expr {
    Expr::Filter(shared(rt, of), shared(rt, list_of(rt, predicate)))
}

// `$v in source`
pub(crate) fn bind(rt: &(impl Abort + AllocGlobal), source: Expr) -> Bind {
    Bind {
        var: name(rt, "v"),
        kind: None,
        source: shared(rt, source),
    }
}

// `some $v in source satisfies test`
pub(crate) fn some(rt: &(impl Abort + AllocGlobal), source: Expr, test: Expr) -> Expr {
    let binds = list_of(rt, bind(rt, source));
    Expr::Quant(false, shared(rt, binds), shared(rt, test))
}

// `for $v in / order by key return /`
pub(crate) fn flwor(rt: &(impl Abort + AllocGlobal), key: Expr) -> Expr {
    Expr::Flwor(ordered(rt, key))
}

pub(crate) fn ordered(rt: &(impl Abort + AllocGlobal), key: Expr) -> Flwor {
    Flwor {
        clauses: shared(rt, list_of(rt, Clause::For(bind(rt, Expr::Root), None))),
        test: None,
        orders: shared(rt, list_of(rt, order(rt, key))),
        stable: false,
        body: shared(rt, Expr::Root),
    }
}

pub(crate) fn order(rt: &(impl Abort + AllocGlobal), key: Expr) -> Order {
    Order {
        key: shared(rt, key),
        descending: false,
    }
}

// a direct element without attributes
pub(crate) fn direct(rt: &(impl Abort + AllocGlobal), parts: List<Part>) -> Expr {
    let attributes = List::new(rt.alloc());
    Expr::Direct(
        bare_name(rt, "a"),
        shared(rt, attributes),
        shared(rt, parts),
    )
}

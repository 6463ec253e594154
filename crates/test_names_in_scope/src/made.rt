// Expressions made for a test, which ends where memory runs out.
use std::alloc::AllocGlobal;
use std::process::Abort;
use xt_names::{ExprName, List, Name, Shared, Text};
use xt_syntax::{Bind, Clause, DirectAttr, Expr, Flwor, NameSource, Order, Part};

pub(crate) const LOCAL: &str = "http://www.w3.org/2005/xquery-local-functions";

pub(crate) const FN: &str = "http://www.w3.org/2005/xpath-functions";

pub(crate) fn shared<T: Drop>(rt: &(impl Abort + AllocGlobal), value: T) -> Shared<T> {
    Shared::make(rt.alloc(), value).expect(rt, "memory")
}

pub(crate) fn list_of<T: Drop>(rt: &(impl Abort + AllocGlobal), item: T) -> List<T> {
    with(rt, List::new(rt.alloc()), item)
}

pub(crate) fn with<T: Drop>(
    rt: &(impl Abort + AllocGlobal),
    mut items: List<T>,
    item: T,
) -> List<T> {
    items.push(item).expect(rt, "memory");
    items
}

pub(crate) fn two_of<T: Drop>(rt: &(impl Abort + AllocGlobal), first: T, second: T) -> List<T> {
    with(rt, list_of(rt, first), second)
}

pub(crate) fn text(rt: &(impl Abort + AllocGlobal), s: &str) -> Text {
    Text::make(rt.alloc(), s).expect(rt, "memory")
}

pub(crate) fn name_in(rt: &(impl Abort + AllocGlobal), uri: &str, local: &str) -> ExprName {
    ExprName {
        uri: text(rt, uri),
        local: text(rt, local),
    }
}

// a name without prefix and uri
pub(crate) fn bare_name(rt: &(impl Abort + AllocGlobal), local: &str) -> Name {
    Name {
        prefix: text(rt, ""),
        uri: text(rt, ""),
        local: text(rt, local),
    }
}

// `$v`
pub(crate) fn var(rt: &(impl Abort + AllocGlobal), local: &str) -> Expr {
    Expr::Var(name_in(rt, "", local))
}

// `a, b`
pub(crate) fn both(rt: &(impl Abort + AllocGlobal), a: Expr, b: Expr) -> Expr {
    Expr::Comma(shared(rt, two_of(rt, a, b)))
}

// `f()` of the uri
pub(crate) fn call_0(rt: &(impl Abort + AllocGlobal), uri: &str, local: &str) -> Expr {
    Expr::Call(name_in(rt, uri, local), shared(rt, List::new(rt.alloc())))
}

// `f(a)`
pub(crate) fn call_1(rt: &(impl Abort + AllocGlobal), uri: &str, local: &str, a: Expr) -> Expr {
    Expr::Call(name_in(rt, uri, local), shared(rt, list_of(rt, a)))
}

// `f(a, b)`
pub(crate) fn call_2(
    rt: &(impl Abort + AllocGlobal),
    uri: &str,
    local: &str,
    a: Expr,
    b: Expr,
) -> Expr {
    Expr::Call(name_in(rt, uri, local), shared(rt, two_of(rt, a, b)))
}

// `$v in source`, or the same with `:=`
pub(crate) fn bind(rt: &(impl Abort + AllocGlobal), local: &str, source: Expr) -> Bind {
    Bind {
        var: name_in(rt, "", local),
        kind: None,
        source: shared(rt, source),
    }
}

// `for $v in source`
pub(crate) fn for_in(rt: &(impl Abort + AllocGlobal), local: &str, source: Expr) -> Clause {
    Clause::For(bind(rt, local, source), None)
}

// `for $v at $p in source`
pub(crate) fn for_at(
    rt: &(impl Abort + AllocGlobal),
    local: &str,
    place: &str,
    source: Expr,
) -> Clause {
    Clause::For(bind(rt, local, source), Some(name_in(rt, "", place)))
}

// `let $v := source`
pub(crate) fn let_be(rt: &(impl Abort + AllocGlobal), local: &str, source: Expr) -> Clause {
    Clause::Let(bind(rt, local, source))
}

// the clauses, and `return body`
pub(crate) fn flwor(rt: &(impl Abort + AllocGlobal), clauses: List<Clause>, body: Expr) -> Expr {
    Expr::Flwor(Flwor {
        clauses: shared(rt, clauses),
        test: None,
        orders: shared(rt, List::new(rt.alloc())),
        stable: false,
        body: shared(rt, body),
    })
}

// the clause, `where test order by key return body`
pub(crate) fn where_order(
    rt: &(impl Abort + AllocGlobal),
    clause: Clause,
    test: Expr,
    key: Expr,
    body: Expr,
) -> Expr {
    let order = Order {
        key: shared(rt, key),
        descending: false,
    };
    Expr::Flwor(Flwor {
        clauses: shared(rt, list_of(rt, clause)),
        test: Some(shared(rt, test)),
        orders: shared(rt, list_of(rt, order)),
        stable: false,
        body: shared(rt, body),
    })
}

// `some` with the bindings, `satisfies test`
pub(crate) fn some_of(rt: &(impl Abort + AllocGlobal), binds: List<Bind>, test: Expr) -> Expr {
    Expr::Quant(false, shared(rt, binds), shared(rt, test))
}

// `element {name} {content}`
pub(crate) fn element(rt: &(impl Abort + AllocGlobal), name: Expr, content: Expr) -> Expr {
    Expr::ElemC(NameSource::Computed(shared(rt, name)), shared(rt, content))
}

// `<e k="{value}">{content}</e>`, where `k` is the name of the attribute
pub(crate) fn direct(
    rt: &(impl Abort + AllocGlobal),
    attribute: &str,
    value: Expr,
    content: Expr,
) -> Expr {
    let attr = DirectAttr {
        name: bare_name(rt, attribute),
        parts: shared(rt, list_of(rt, Part::Enclosed(shared(rt, value)))),
    };
    let parts = list_of(rt, Part::Enclosed(shared(rt, content)));
    Expr::Direct(
        bare_name(rt, "e"),
        shared(rt, list_of(rt, attr)),
        shared(rt, parts),
    )
}

// Whether two queries are the same, the prefixes of their names included.
use xt_names::{Binding, Name};
use xt_syntax::{
    Arm, Bind, Clause, DirectAttr, Expr, Flwor, NameSource, Order, Part, Query, QueryFunction,
    QueryParam, QueryVar,
};

fn same_name(a: &Name, b: &Name) -> bool {
    a.prefix == b.prefix && a.uri == b.uri && a.local == b.local
}

#[cycle(same)]
fn same_expr(a: &Expr, b: &Expr) -> bool {
    match (a, b) {
        (Expr::Int(a), Expr::Int(b)) => *a == *b,
        (Expr::Str(a), Expr::Str(b)) => *a == *b,
        (Expr::Var(a), Expr::Var(b)) => *a == *b,
        (Expr::Context, Expr::Context) => true,
        (Expr::Root, Expr::Root) => true,
        (Expr::Comma(a), Expr::Comma(b)) => same_list(a.get().as_slice(), b.get().as_slice()),
        (Expr::Or(a), Expr::Or(b)) => same_list(a.get().as_slice(), b.get().as_slice()),
        (Expr::And(a), Expr::And(b)) => same_list(a.get().as_slice(), b.get().as_slice()),
        (Expr::If(a, x), Expr::If(b, y)) => {
            same_arms(a.get().as_slice(), b.get().as_slice()) && same_expr(x.get(), y.get())
        }
        (Expr::Flwor(a), Expr::Flwor(b)) => same_flow(a, b),
        (Expr::Quant(m, a, x), Expr::Quant(n, b, y)) => {
            *m == *n
                && same_binds(a.get().as_slice(), b.get().as_slice())
                && same_expr(x.get(), y.get())
        }
        _ => same_step(a, b) || same_two(a, b),
    }
}

#[cycle(same)]
fn same_step(a: &Expr, b: &Expr) -> bool {
    match (a, b) {
        (Expr::Step(m, s, a), Expr::Step(n, t, b)) => {
            *m == *n && *s == *t && same_list(a.get().as_slice(), b.get().as_slice())
        }
        (Expr::Filter(x, a), Expr::Filter(y, b)) => {
            same_expr(x.get(), y.get()) && same_list(a.get().as_slice(), b.get().as_slice())
        }
        (Expr::Call(m, a), Expr::Call(n, b)) => {
            *m == *n && same_list(a.get().as_slice(), b.get().as_slice())
        }
        (Expr::ElemC(m, x), Expr::ElemC(n, y)) => same_source(m, n) && same_expr(x.get(), y.get()),
        (Expr::AttrC(m, x), Expr::AttrC(n, y)) => same_source(m, n) && same_expr(x.get(), y.get()),
        (Expr::PiC(m, x), Expr::PiC(n, y)) => same_source(m, n) && same_expr(x.get(), y.get()),
        (Expr::DocC(x), Expr::DocC(y)) => same_expr(x.get(), y.get()),
        (Expr::TextC(x), Expr::TextC(y)) => same_expr(x.get(), y.get()),
        (Expr::CommentC(x), Expr::CommentC(y)) => same_expr(x.get(), y.get()),
        (Expr::Direct(m, a, x), Expr::Direct(n, b, y)) => {
            same_name(m, n)
                && same_attrs(a.get().as_slice(), b.get().as_slice())
                && same_parts(x.get().as_slice(), y.get().as_slice())
        }
        _ => false,
    }
}

#[cycle(same)]
fn same_two(a: &Expr, b: &Expr) -> bool {
    match (a, b) {
        (Expr::General(m, a, x), Expr::General(n, b, y)) => {
            *m == *n && same_expr(a.get(), b.get()) && same_expr(x.get(), y.get())
        }
        (Expr::Value(m, a, x), Expr::Value(n, b, y)) => {
            *m == *n && same_expr(a.get(), b.get()) && same_expr(x.get(), y.get())
        }
        (Expr::Arith(m, a, x), Expr::Arith(n, b, y)) => {
            *m == *n && same_expr(a.get(), b.get()) && same_expr(x.get(), y.get())
        }
        (Expr::Is(a, x), Expr::Is(b, y))
        | (Expr::Before(a, x), Expr::Before(b, y))
        | (Expr::After(a, x), Expr::After(b, y))
        | (Expr::Range(a, x), Expr::Range(b, y))
        | (Expr::Union(a, x), Expr::Union(b, y))
        | (Expr::Intersect(a, x), Expr::Intersect(b, y))
        | (Expr::Except(a, x), Expr::Except(b, y))
        | (Expr::Slash(a, x), Expr::Slash(b, y)) => {
            same_expr(a.get(), b.get()) && same_expr(x.get(), y.get())
        }
        (Expr::Minus(a), Expr::Minus(b)) | (Expr::Plus(a), Expr::Plus(b)) => {
            same_expr(a.get(), b.get())
        }
        (Expr::InstanceOf(a, s), Expr::InstanceOf(b, t)) | (Expr::Treat(a, s), Expr::Treat(b, t)) =>
            *s == *t && same_expr(a.get(), b.get()),
        (Expr::Castable(a, s, m), Expr::Castable(b, t, n))
        | (Expr::Cast(a, s, m), Expr::Cast(b, t, n)) => {
            *s == *t && *m == *n && same_expr(a.get(), b.get())
        }
        _ => false,
    }
}

#[cycle(same)]
fn same_list(a: &[Expr], b: &[Expr]) -> bool {
    let mut left = b;
    for x in a {
        match left {
            [] => return false,
            [y, rest @ ..] => {
                if !same_expr(x, y) {
                    return false;
                }
                left = rest;
            }
        }
    }
    left.is_empty()
}

#[cycle(same)]
fn same_arms(a: &[Arm], b: &[Arm]) -> bool {
    let mut left = b;
    for x in a {
        match left {
            [] => return false,
            [y, rest @ ..] => {
                if !same_expr(x.test.get(), y.test.get()) {
                    return false;
                }
                if !same_expr(x.then.get(), y.then.get()) {
                    return false;
                }
                left = rest;
            }
        }
    }
    left.is_empty()
}

#[cycle(same)]
fn same_bind(a: &Bind, b: &Bind) -> bool {
    a.var == b.var && a.kind == b.kind && same_expr(a.source.get(), b.source.get())
}

#[cycle(same)]
fn same_binds(a: &[Bind], b: &[Bind]) -> bool {
    let mut left = b;
    for x in a {
        match left {
            [] => return false,
            [y, rest @ ..] => {
                if !same_bind(x, y) {
                    return false;
                }
                left = rest;
            }
        }
    }
    left.is_empty()
}

#[cycle(same)]
fn same_flow(a: &Flwor, b: &Flwor) -> bool {
    let tests = match (&a.test, &b.test) {
        (None, None) => true,
        (Some(x), Some(y)) => same_expr(x.get(), y.get()),
        _ => false,
    };
    a.stable == b.stable
        && tests
        && same_clauses(a.clauses.get().as_slice(), b.clauses.get().as_slice())
        && same_orders(a.orders.get().as_slice(), b.orders.get().as_slice())
        && same_expr(a.body.get(), b.body.get())
}

#[cycle(same)]
fn same_clauses(a: &[Clause], b: &[Clause]) -> bool {
    let mut left = b;
    for x in a {
        match left {
            [] => return false,
            [y, rest @ ..] => {
                if !same_clause(x, y) {
                    return false;
                }
                left = rest;
            }
        }
    }
    left.is_empty()
}

#[cycle(same)]
fn same_clause(a: &Clause, b: &Clause) -> bool {
    match (a, b) {
        (Clause::For(x, m), Clause::For(y, n)) => *m == *n && same_bind(x, y),
        (Clause::Let(x), Clause::Let(y)) => same_bind(x, y),
        _ => false,
    }
}

#[cycle(same)]
fn same_orders(a: &[Order], b: &[Order]) -> bool {
    let mut left = b;
    for x in a {
        match left {
            [] => return false,
            [y, rest @ ..] => {
                if x.descending != y.descending || !same_expr(x.key.get(), y.key.get()) {
                    return false;
                }
                left = rest;
            }
        }
    }
    left.is_empty()
}

#[cycle(same)]
fn same_source(a: &NameSource, b: &NameSource) -> bool {
    match (a, b) {
        (NameSource::Fixed(x), NameSource::Fixed(y)) => same_name(x, y),
        (NameSource::Computed(x), NameSource::Computed(y)) => same_expr(x.get(), y.get()),
        _ => false,
    }
}

#[cycle(same)]
fn same_attrs(a: &[DirectAttr], b: &[DirectAttr]) -> bool {
    let mut left = b;
    for x in a {
        match left {
            [] => return false,
            [y, rest @ ..] => {
                if !same_name(&x.name, &y.name) {
                    return false;
                }
                if !same_parts(x.parts.get().as_slice(), y.parts.get().as_slice()) {
                    return false;
                }
                left = rest;
            }
        }
    }
    left.is_empty()
}

#[cycle(same)]
fn same_parts(a: &[Part], b: &[Part]) -> bool {
    let mut left = b;
    for x in a {
        match left {
            [] => return false,
            [y, rest @ ..] => {
                if !same_part(x, y) {
                    return false;
                }
                left = rest;
            }
        }
    }
    left.is_empty()
}

#[cycle(same)]
fn same_part(a: &Part, b: &Part) -> bool {
    match (a, b) {
        (Part::Chars(x), Part::Chars(y)) => *x == *y,
        (Part::Enclosed(x), Part::Enclosed(y)) | (Part::Child(x), Part::Child(y)) => {
            same_expr(x.get(), y.get())
        }
        _ => false,
    }
}

fn same_bindings(a: &[Binding], b: &[Binding]) -> bool {
    let mut left = b;
    for x in a {
        match left {
            [] => return false,
            [y, rest @ ..] => {
                if x.prefix != y.prefix || x.uri != y.uri {
                    return false;
                }
                left = rest;
            }
        }
    }
    left.is_empty()
}

fn same_variable(a: &QueryVar, b: &QueryVar) -> bool {
    let values = match (&a.value, &b.value) {
        (None, None) => true,
        (Some(x), Some(y)) => same_expr(x, y),
        _ => false,
    };
    a.name == b.name && a.kind == b.kind && values
}

fn same_variables(a: &[QueryVar], b: &[QueryVar]) -> bool {
    let mut left = b;
    for x in a {
        match left {
            [] => return false,
            [y, rest @ ..] => {
                if !same_variable(x, y) {
                    return false;
                }
                left = rest;
            }
        }
    }
    left.is_empty()
}

fn same_params(a: &[QueryParam], b: &[QueryParam]) -> bool {
    let mut left = b;
    for x in a {
        match left {
            [] => return false,
            [y, rest @ ..] => {
                if x.name != y.name || x.kind != y.kind {
                    return false;
                }
                left = rest;
            }
        }
    }
    left.is_empty()
}

fn same_functions(a: &[QueryFunction], b: &[QueryFunction]) -> bool {
    let mut left = b;
    for x in a {
        match left {
            [] => return false,
            [y, rest @ ..] => {
                if x.name != y.name || x.kind != y.kind {
                    return false;
                }
                if !same_params(x.params.as_slice(), y.params.as_slice())
                    || !same_expr(&x.body, &y.body)
                {
                    return false;
                }
                left = rest;
            }
        }
    }
    left.is_empty()
}

pub(crate) fn same_query(a: &Query, b: &Query) -> bool {
    same_bindings(a.prefixes.as_slice(), b.prefixes.as_slice())
        && a.element_default == b.element_default
        && same_variables(a.variables.as_slice(), b.variables.as_slice())
        && same_functions(a.functions.as_slice(), b.functions.as_slice())
        && same_expr(&a.body, &b.body)
        && a.space.as_slice() == b.space.as_slice()
        && a.omit == b.omit
}

// Expressions of XPath alone.
ghost use Rattle.std.specs.Prelude.{◌≡◌, map};
ghost use Rattle.xt_forms.specs.Plain.{is_plain_expr, has_plain_forms, is_plain_arm, is_plain_bind, is_plain_clause, is_plain_flwor};
ghost use Rattle.xt_forms.specs.Regular.{every};

use crate::regularity::is_regular;
use function_table::is_known;
use xt_syntax::{Arm, Bind, Clause, Expr, Flwor};

/// Whether the expression uses XPath alone (XPath 2.0, 3) and calls only functions of the table, or `doc`: it is
/// regular, and in it stand no constructor, no `let`, no type on a variable, no position, no `where` and no order.
pub fn is_plain(e: &Expr) -> bool
    ensures { result ≡ is_plain_expr e.now }
{
    is_regular(e) && has_plain_forms(e)
}

#[cycle(plain)]
fn has_plain_forms(e: &Expr) -> bool
    ensures { result ≡ has_plain_forms e.now }
{
    match e {
        Expr::Int(_) | Expr::Str(_) | Expr::Var(_) | Expr::Context | Expr::Root => true,
        Expr::Comma(all) | Expr::Or(all) | Expr::And(all) | Expr::Step(_, _, all) => are_plain(
            all.get().as_slice(),
        ),
        Expr::If(arms, other) => are_plain_arms(arms.get().as_slice())
            && has_plain_forms(other.get()),
        Expr::Flwor(parts) => is_plain_flwor(parts),
        Expr::Quant(_, binds, test) => are_plain_binds(binds.get().as_slice())
            && has_plain_forms(test.get()),
        Expr::General(_, a, b)
        | Expr::Value(_, a, b)
        | Expr::Arith(_, a, b)
        | Expr::Is(a, b)
        | Expr::Before(a, b)
        | Expr::After(a, b)
        | Expr::Range(a, b)
        | Expr::Union(a, b)
        | Expr::Intersect(a, b)
        | Expr::Except(a, b)
        | Expr::Slash(a, b) => has_plain_forms(a.get()) && has_plain_forms(b.get()),
        Expr::Minus(a)
        | Expr::Plus(a)
        | Expr::InstanceOf(a, _)
        | Expr::Treat(a, _)
        | Expr::Castable(a, _, _)
        | Expr::Cast(a, _, _) => has_plain_forms(a.get()),
        Expr::Filter(of, tests) => has_plain_forms(of.get()) && are_plain(tests.get().as_slice()),
        Expr::Call(name, args) => is_known(name, args.get().len())
            && are_plain(args.get().as_slice()),
        Expr::ElemC(_, _)
        | Expr::AttrC(_, _)
        | Expr::DocC(_)
        | Expr::TextC(_)
        | Expr::CommentC(_)
        | Expr::PiC(_, _)
        | Expr::Direct(_, _, _) => false,
    }
}

#[cycle(plain)]
fn are_plain(all: &[Expr]) -> bool
    ensures { result ≡ every (map has_plain_forms all.now) }
{
    for e in all {
        if !has_plain_forms(e) {
            return false;
        }
    }
    true
}

#[cycle(plain)]
fn are_plain_arms(all: &[Arm]) -> bool
    ensures { result ≡ every (map is_plain_arm all.now) }
{
    for arm in all {
        if !(has_plain_forms(arm.test.get()) && has_plain_forms(arm.then.get())) {
            return false;
        }
    }
    true
}

#[cycle(plain)]
fn are_plain_binds(all: &[Bind]) -> bool
    ensures { result ≡ every (map is_plain_bind all.now) }
{
    for bind in all {
        if !is_plain_bind(bind) {
            return false;
        }
    }
    true
}

#[cycle(plain)]
fn is_plain_bind(bind: &Bind) -> bool
    ensures { result ≡ is_plain_bind bind.now }
{
    bind.kind.is_none() && has_plain_forms(bind.source.get())
}

#[cycle(plain)]
fn is_plain_flwor(f: &Flwor) -> bool
    ensures { result ≡ is_plain_flwor f.now }
{
    are_plain_clauses(f.clauses.get().as_slice())
        && f.test.is_none()
        && f.orders.get().is_empty()
        && has_plain_forms(f.body.get())
}

#[cycle(plain)]
fn are_plain_clauses(all: &[Clause]) -> bool
    ensures { result ≡ every (map is_plain_clause all.now) }
{
    for clause in all {
        if !is_plain_clause(clause) {
            return false;
        }
    }
    true
}

#[cycle(plain)]
fn is_plain_clause(clause: &Clause) -> bool
    ensures { result ≡ is_plain_clause clause.now }
{
    match clause {
        Clause::For(bind, place) => place.is_none() && is_plain_bind(bind),
        Clause::Let(_) => false,
    }
}

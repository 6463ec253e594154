// Expressions of XPath alone, whatever functions they call.
ghost use Rattle.std.specs.Prelude.{◌≡◌, map};
ghost use Rattle.xt_forms.specs.Regular.{every};
ghost use Rattle.closed_sheets.specs.Forms.{has_xpath_forms, is_xpath_arm, is_xpath_bind};
ghost use Rattle.closed_sheets.specs.Forms.{is_xpath_clause, is_xpath_flwor};

use xt_syntax::{Arm, Bind, Clause, Expr, Flwor};

/// Whether the expression has the forms of XPath alone (XPath 2.0, 3): in it stand no constructor,
/// no `let`, no type on a variable, no position, no `where` and no order. It may call any function.
#[cycle(forms)]
pub(crate) fn has_xpath_forms(e: &Expr) -> bool
    ensures { result ≡ has_xpath_forms e.now }
{
    match e {
        Expr::Int(_) | Expr::Str(_) | Expr::Var(_) | Expr::Context | Expr::Root => true,
        Expr::Comma(all) | Expr::Or(all) | Expr::And(all) | Expr::Step(_, _, all) => are_xpath(
            all.get().as_slice(),
        ),
        Expr::If(arms, other) => are_xpath_arms(arms.get().as_slice())
            && has_xpath_forms(other.get()),
        Expr::Flwor(parts) => is_xpath_flwor(parts),
        Expr::Quant(_, binds, test) => are_xpath_binds(binds.get().as_slice())
            && has_xpath_forms(test.get()),
        Expr::General(_, a, b)
        | Expr::Value(_, a, b)
        | Expr::Arith(_, a, b)
        | Expr::Is(a, b)
        | Expr::Before(a, b)
        | Expr::After(a, b)
        | Expr::Range(a, b)
        | Expr::Union(a, b)
        | Expr::Intersect(a, b)
        | Expr::Except(a, b)
        | Expr::Slash(a, b) => has_xpath_forms(a.get()) && has_xpath_forms(b.get()),
        Expr::Minus(a)
        | Expr::Plus(a)
        | Expr::InstanceOf(a, _)
        | Expr::Treat(a, _)
        | Expr::Castable(a, _, _)
        | Expr::Cast(a, _, _) => has_xpath_forms(a.get()),
        Expr::Filter(of, tests) => has_xpath_forms(of.get()) && are_xpath(tests.get().as_slice()),
        Expr::Call(_, args) => are_xpath(args.get().as_slice()),
        Expr::ElemC(_, _)
        | Expr::AttrC(_, _)
        | Expr::DocC(_)
        | Expr::TextC(_)
        | Expr::CommentC(_)
        | Expr::PiC(_, _)
        | Expr::Direct(_, _, _) => false,
    }
}

#[cycle(forms)]
fn are_xpath(all: &[Expr]) -> bool
    ensures { result ≡ every (map has_xpath_forms all.now) }
{
    for e in all {
        if !has_xpath_forms(e) {
            return false;
        }
    }
    true
}

#[cycle(forms)]
fn are_xpath_arms(all: &[Arm]) -> bool
    ensures { result ≡ every (map is_xpath_arm all.now) }
{
    for arm in all {
        if !(has_xpath_forms(arm.test.get()) && has_xpath_forms(arm.then.get())) {
            return false;
        }
    }
    true
}

#[cycle(forms)]
fn are_xpath_binds(all: &[Bind]) -> bool
    ensures { result ≡ every (map is_xpath_bind all.now) }
{
    for bind in all {
        if !is_xpath_bind(bind) {
            return false;
        }
    }
    true
}

#[cycle(forms)]
fn is_xpath_bind(bind: &Bind) -> bool
    ensures { result ≡ is_xpath_bind bind.now }
{
    bind.kind.is_none() && has_xpath_forms(bind.source.get())
}

#[cycle(forms)]
fn is_xpath_flwor(f: &Flwor) -> bool
    ensures { result ≡ is_xpath_flwor f.now }
{
    are_xpath_clauses(f.clauses.get().as_slice())
        && f.test.is_none()
        && f.orders.get().is_empty()
        && has_xpath_forms(f.body.get())
}

#[cycle(forms)]
fn are_xpath_clauses(all: &[Clause]) -> bool
    ensures { result ≡ every (map is_xpath_clause all.now) }
{
    for clause in all {
        if !is_xpath_clause(clause) {
            return false;
        }
    }
    true
}

#[cycle(forms)]
fn is_xpath_clause(clause: &Clause) -> bool
    ensures { result ≡ is_xpath_clause clause.now }
{
    match clause {
        Clause::For(bind, place) => place.is_none() && is_xpath_bind(bind),
        Clause::Let(_) => false,
    }
}

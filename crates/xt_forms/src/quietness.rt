// Predicates that fail on no node, as patterns have them.
ghost use Rattle.std.specs.Prelude.{◌≡◌, map};
ghost use Rattle.std.specs.List.{list_all};
ghost use Rattle.xt_forms.specs.Quiet.{is_quiet_expr, quiet_form_of, is_truth, is_predicate, call_form, stepped};

use crate::quiet_calls::{QuietCall, called, called_with, quiet_call};
use crate::quiet_forms::{QuietForm, compared, condition_if, slashed};
use crate::regularity::is_regular;
use xt_syntax::Expr;

/// Whether the expression is of regular form and is one of these predicates, which fail on no node:
///
/// - an integer, or last(), alone;
/// - `or` and `and` of the ones that follow, and not() of one;
/// - true() and false();
/// - position() or last() compared with an integer, and position() with last();
/// - a path: axis steps joined by `/`, each with such predicates; exists() and empty() of one; count() of one compared
///   with an integer;
/// - a path, name() or local-name() compared with a literal.
///
/// Comparisons are `=` `!=` `<` `<=` `>` `>=` with the literal, the integer or that last() at the right.
pub fn is_quiet(e: &Expr) -> bool
    ensures { result ≡ is_quiet_expr e.now }
{
    is_regular(e) && quiet_form(e).is_predicate()
}

#[cycle(quiet)]
fn quiet_form(e: &Expr) -> QuietForm
    ensures { result ≡ quiet_form_of e.now }
{
    match e {
        Expr::Int(_) => QuietForm::Integer,
        Expr::Str(_) => QuietForm::Literal,
        Expr::Or(all) | Expr::And(all) => condition_if(are_truths(all.get().as_slice())),
        Expr::General(_, a, b) => compared(quiet_form(a.get()), quiet_form(b.get())),
        Expr::Slash(a, b) => slashed(quiet_form(a.get()), quiet_form(b.get())),
        Expr::Step(_, _, tests) => stepped(are_predicates(tests.get().as_slice())),
        Expr::Call(name, args) => call_form(quiet_call(name), args.get().as_slice()),
        Expr::Var(_)
        | Expr::Context
        | Expr::Root
        | Expr::Comma(_)
        | Expr::If(_, _)
        | Expr::Flwor(_)
        | Expr::Quant(_, _, _)
        | Expr::Value(_, _, _)
        | Expr::Is(_, _)
        | Expr::Before(_, _)
        | Expr::After(_, _)
        | Expr::Range(_, _)
        | Expr::Arith(_, _, _)
        | Expr::Minus(_)
        | Expr::Plus(_)
        | Expr::Union(_, _)
        | Expr::Intersect(_, _)
        | Expr::Except(_, _)
        | Expr::InstanceOf(_, _)
        | Expr::Treat(_, _)
        | Expr::Castable(_, _, _)
        | Expr::Cast(_, _, _)
        | Expr::Filter(_, _)
        | Expr::ElemC(_, _)
        | Expr::AttrC(_, _)
        | Expr::DocC(_)
        | Expr::TextC(_)
        | Expr::CommentC(_)
        | Expr::PiC(_, _)
        | Expr::Direct(_, _, _) => QuietForm::Other,
    }
}

fn stepped(quiet: bool) -> QuietForm
    ensures { result ≡ stepped quiet }
{
    if quiet {
        QuietForm::Step
    } else {
        QuietForm::Other
    }
}

#[cycle(quiet)]
fn are_truths(all: &[Expr]) -> bool
    ensures { result ≡ list_all is_truth (map quiet_form_of all.now) }
{
    for e in all {
        if !quiet_form(e).is_truth() {
            return false;
        }
    }
    true
}

#[cycle(quiet)]
fn are_predicates(all: &[Expr]) -> bool
    ensures { result ≡ list_all is_predicate (map quiet_form_of all.now) }
{
    for e in all {
        if !quiet_form(e).is_predicate() {
            return false;
        }
    }
    true
}

#[cycle(quiet)]
#[tactic(auto, unfolding(crate::specs::Quiet::call_form))]
fn call_form(f: QuietCall, args: &[Expr]) -> QuietForm
    ensures { result ≡ call_form f (map quiet_form_of args.now) }
{
    match args {
        [] => called(f),
        [only] => called_with(f, quiet_form(only)),
        _ => QuietForm::Other,
    }
}

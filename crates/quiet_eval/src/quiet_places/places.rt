// Predicates and their operands, form by form.
ghost use Rattle.std.specs.Prelude.{◌≡◌, map, true, false};
ghost use Rattle.std.specs.List.{list_all};
ghost use Rattle.xt_syntax.specs.declared.exprs.Expr.{Expr as AnExpr};
ghost use Rattle.quiet_meaning.specs.Quietly.{quietly_of, holds_at};
ghost use Rattle.node_axes.specs.StepWalks.Sifted.{IsSizeFree};
ghost use Rattle.quiet_eval.specs.QuietPlaces.Free.{IsSame, called_free, free_of};
ghost use Rattle.quiet_eval.specs.QuietPlaces.Free.{is_place_free_expr, is_size_free_expr};

use xt_forms::{QuietCall, quiet_call};
use xt_syntax::Expr;

/// A predicate that is free of its place keeps a node at one position among so many exactly where it keeps it at any other.
pub fn place_free_predicates_keep_a_node_anywhere()
    ensures { (e : AnExpr) → is_place_free_expr e ≡ true → IsSame (quietly_of e) }
{}

/// A predicate that is free of the size keeps a node at a position exactly among so many where it
/// keeps it there among any other number.
pub fn size_free_predicates_keep_a_node_among_any_number()
    ensures { (e : AnExpr) → is_size_free_expr e ≡ true → IsSizeFree (holds_at (quietly_of e)) }
{}

/// Whether the predicate looks at no position, by its form.
pub fn is_place_free(e: &Expr) -> bool
    ensures { result ≡ is_place_free_expr e.now }
{
    is_free(e, false, false)
}

/// Whether the predicate does not look at how many nodes there are, by its form: last() does.
pub fn is_size_free(e: &Expr) -> bool
    ensures { result ≡ is_size_free_expr e.now }
{
    is_free(e, true, false)
}

/// The same of a predicate, or of an operand of a comparison, where an integer is a value. Where
/// `placed` is true, positions may be looked at.
#[cycle(free)]
fn is_free(e: &Expr, placed: bool, operand: bool) -> bool
    ensures { result ≡ free_of e.now placed operand }
{
    match e {
        Expr::Int(_) => placed || operand,
        Expr::Or(all) => are_free(all.get().as_slice(), placed),
        Expr::And(all) => are_free(all.get().as_slice(), placed),
        Expr::General(_, a, b) => is_free(a.get(), placed, true) && is_free(b.get(), placed, true),
        Expr::Call(name, args) => called_free(placed, quiet_call(name), args.get().as_slice()),
        _ => true,
    }
}

#[cycle(free)]
fn are_free(all: &[Expr], placed: bool) -> bool
    ensures { result ≡ list_all (λ f. f placed false) (map free_of all.now) }
{
    for e in all {
        if !is_free(e, placed, false) {
            return false;
        }
    }
    true
}

#[cycle(free)]
#[tactic(auto, unfolding(crate::specs::QuietPlaces::Free::called_free))]
fn called_free(placed: bool, f: QuietCall, args: &[Expr]) -> bool
    ensures { result ≡ called_free placed f (map free_of args.now) }
{
    match f {
        QuietCall::Position => placed,
        QuietCall::Last => false,
        QuietCall::Not => are_free(args, placed),
        QuietCall::Constant => true,
        QuietCall::Exists => true,
        QuietCall::Count => true,
        QuietCall::NameOf => true,
        QuietCall::Other => true,
    }
}

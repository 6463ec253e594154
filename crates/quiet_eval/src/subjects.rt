// The parts of a predicate by which it is decided.
ghost use Rattle.std.specs.Prelude.{◌≡◌, if◌then◌else◌, None};
ghost use Rattle.std.specs.Option.{option_copied};
ghost use Rattle.xt_forms.specs.Quiet.{quiet_call};
ghost use Rattle.quiet_eval.specs.Subjects.{is_not, only, negated_part, subject_part, path_part};

use xt_forms::{QuietCall, quiet_call};
use xt_names::ExprName;
use xt_syntax::Expr;

/// The predicate within not(); None at any other predicate.
pub(crate) fn negated(e: &Expr) -> Option<&Expr>
    ensures { option_copied result ≡ negated_part e.now }
{
    match e {
        Expr::Call(name, args) => negated_argument(name, args.get().as_slice()),
        _ => None,
    }
}

fn negated_argument<'a>(name: &ExprName, args: &'a [Expr]) -> Option<&'a Expr>
    ensures { option_copied result ≡ (if is_not (quiet_call name.now) then only args.now else None) }
{
    if is_not(quiet_call(name)) {
        only(args)
    } else {
        None
    }
}

#[tactic(auto, unfolding(crate::specs::Subjects::is_not))]
fn is_not(f: QuietCall) -> bool
    ensures { result ≡ is_not f }
{
    matches!(f, QuietCall::Not)
}

/// The one argument; None where there is none, or more.
fn only(args: &[Expr]) -> Option<&Expr>
    ensures { option_copied result ≡ only args.now }
{
    match args {
        [a] => Some(a),
        _ => None,
    }
}

/// The path on which a predicate is decided that stands alone: it, the argument of exists() or empty(), or the path that is
/// compared or counted. None where there is no path.
pub(crate) fn path_in(e: &Expr) -> Option<&Expr>
    ensures { option_copied result ≡ path_part e.now }
{
    match e {
        Expr::General(_, a, _) => subject_in(a.get()),
        _ => subject_in(e),
    }
}

fn subject_in(e: &Expr) -> Option<&Expr>
    ensures { option_copied result ≡ subject_part e.now }
{
    match e {
        Expr::Call(_, args) => only(args.get().as_slice()),
        Expr::Slash(_, _) => Some(e),
        Expr::Step(_, _, _) => Some(e),
        _ => None,
    }
}

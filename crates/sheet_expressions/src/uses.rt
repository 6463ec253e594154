// Expressions that a key may have as its `use`.
ghost use Rattle.std.specs.Prelude.{◌≡◌, map};
ghost use Rattle.xt_forms.specs.Regular.{every};
ghost use Rattle.sheet_expressions.specs.Uses.{is_key, is_key_use, is_use_arm};

use function_table::is_in_fn;
use xt_names::{ExprName, is_ascii_text};
use xt_syntax::{Arm, Expr};

#[tactic(auto, unfolding(crate::specs::Uses::is_key))]
fn is_key(name: &ExprName) -> bool
    ensures { result ≡ is_key name.now }
{
    is_in_fn(name) && is_ascii_text(name.local.as_str(), "key")
}

/// Whether a key may have the expression as its `use`: it names and binds no variable (so it has no
/// `for`, `some` and `every`), and calls no key() (XSLT 2.0, 16.3.1). An expression that is in
/// queries alone may not be one.
#[cycle(uses)]
pub fn is_key_use(e: &Expr) -> bool
    ensures { result ≡ is_key_use e.now }
{
    match e {
        Expr::Int(_) | Expr::Str(_) | Expr::Context | Expr::Root => true,
        Expr::Comma(all) | Expr::Or(all) | Expr::And(all) | Expr::Step(_, _, all) => are_uses(
            all.get().as_slice(),
        ),
        Expr::If(arms, other) => are_use_arms(arms.get().as_slice()) && is_key_use(other.get()),
        Expr::General(_, a, b)
        | Expr::Value(_, a, b)
        | Expr::Arith(_, a, b)
        | Expr::Is(a, b)
        | Expr::Before(a, b)
        | Expr::After(a, b)
        | Expr::Range(a, b)
        | Expr::Union(a, b)
        | Expr::Intersect(a, b)
        | Expr::Except(a, b)
        | Expr::Slash(a, b) => is_key_use(a.get()) && is_key_use(b.get()),
        Expr::Minus(a)
        | Expr::Plus(a)
        | Expr::InstanceOf(a, _)
        | Expr::Treat(a, _)
        | Expr::Castable(a, _, _)
        | Expr::Cast(a, _, _) => is_key_use(a.get()),
        Expr::Filter(of, tests) => is_key_use(of.get()) && are_uses(tests.get().as_slice()),
        Expr::Call(name, args) => !is_key(name) && are_uses(args.get().as_slice()),
        Expr::Var(_)
        | Expr::Flwor(_)
        | Expr::Quant(_, _, _)
        | Expr::ElemC(_, _)
        | Expr::AttrC(_, _)
        | Expr::DocC(_)
        | Expr::TextC(_)
        | Expr::CommentC(_)
        | Expr::PiC(_, _)
        | Expr::Direct(_, _, _) => false,
    }
}

#[cycle(uses)]
fn are_uses(all: &[Expr]) -> bool
    ensures { result ≡ every (map is_key_use all.now) }
{
    for e in all {
        if !is_key_use(e) {
            return false;
        }
    }
    true
}

#[cycle(uses)]
fn are_use_arms(all: &[Arm]) -> bool
    ensures { result ≡ every (map is_use_arm all.now) }
{
    for arm in all {
        if !(is_key_use(arm.test.get()) && is_key_use(arm.then.get())) {
            return false;
        }
    }
    true
}

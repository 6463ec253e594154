// What operators make of their operands.
ghost use Rattle.std.specs.Prelude.{◌≡◌};
ghost use Rattle.expr_control.specs.Operators.{compared, combined, operated_by, of_type, of_single, signed_by};

use expr_terms::{Key, Level};
use xt_names::{ArithOp, AtomType, CompareOp, Shared};
use xt_syntax::Expr;
use xt_types::SeqType;

#[tactic(auto, unfolding(crate::specs::Operators::compared))]
fn compared(key: Key, a: Shared<Expr>, b: Shared<Expr>) -> Expr
    ensures { result ≡ compared key a b }
{
    match key {
        Key::Equal => Expr::General(CompareOp::Eq, a, b),
        Key::NotEqual => Expr::General(CompareOp::Ne, a, b),
        Key::Less => Expr::General(CompareOp::Lt, a, b),
        Key::LessEqual => Expr::General(CompareOp::Le, a, b),
        Key::Greater => Expr::General(CompareOp::Gt, a, b),
        Key::GreaterEqual => Expr::General(CompareOp::Ge, a, b),
        Key::EqWord => Expr::Value(CompareOp::Eq, a, b),
        Key::NeWord => Expr::Value(CompareOp::Ne, a, b),
        Key::LtWord => Expr::Value(CompareOp::Lt, a, b),
        Key::LeWord => Expr::Value(CompareOp::Le, a, b),
        Key::GtWord => Expr::Value(CompareOp::Gt, a, b),
        Key::GeWord => Expr::Value(CompareOp::Ge, a, b),
        Key::Before => Expr::Before(a, b),
        Key::After => Expr::After(a, b),
        _ => Expr::Is(a, b),
    }
}

#[tactic(auto, unfolding(crate::specs::Operators::combined))]
fn combined(key: Key, a: Shared<Expr>, b: Shared<Expr>) -> Expr
    ensures { result ≡ combined key a b }
{
    match key {
        Key::Plus => Expr::Arith(ArithOp::Add, a, b),
        Key::Minus => Expr::Arith(ArithOp::Sub, a, b),
        Key::Star => Expr::Arith(ArithOp::Mul, a, b),
        Key::IdivWord => Expr::Arith(ArithOp::Idiv, a, b),
        Key::ModWord => Expr::Arith(ArithOp::Mod, a, b),
        Key::IntersectWord => Expr::Intersect(a, b),
        Key::ExceptWord => Expr::Except(a, b),
        Key::ToWord => Expr::Range(a, b),
        _ => Expr::Union(a, b),
    }
}

/// The operator between its operands.
#[tactic(auto, unfolding(crate::specs::Operators::operated_by))]
pub(crate) fn operated_by(level: Level, key: Key, a: Shared<Expr>, b: Shared<Expr>) -> Expr
    ensures { result ≡ operated_by level key a b }
{
    match level {
        Level::Comparison => compared(key, a, b),
        _ => combined(key, a, b),
    }
}

/// `a instance of T` or `a treat as T`.
#[tactic(auto, unfolding(crate::specs::Operators::of_type))]
pub(crate) fn of_type(level: Level, a: Shared<Expr>, kind: SeqType) -> Expr
    ensures { result ≡ of_type level a kind }
{
    match level {
        Level::Treat => Expr::Treat(a, kind),
        _ => Expr::InstanceOf(a, kind),
    }
}

/// `a castable as T` or `a cast as T`.
#[tactic(auto, unfolding(crate::specs::Operators::of_single))]
pub(crate) fn of_single(level: Level, a: Shared<Expr>, kind: AtomType, empty: bool) -> Expr
    ensures { result ≡ of_single level a kind empty }
{
    match level {
        Level::Cast => Expr::Cast(a, kind, empty),
        _ => Expr::Castable(a, kind, empty),
    }
}

/// `+a` or `-a`.
#[tactic(auto, unfolding(crate::specs::Operators::signed_by))]
pub(crate) fn signed_by(key: Key, a: Shared<Expr>) -> Expr
    ensures { result ≡ signed_by key a }
{
    match key {
        Key::Minus => Expr::Minus(a),
        _ => Expr::Plus(a),
    }
}

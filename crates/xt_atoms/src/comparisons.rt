// Comparisons of two atoms.
ghost use Rattle.std.specs.Prelude.{◌≡◌};
ghost use Rattle.std.specs.Str.{chars};
ghost use Rattle.xt_atoms.specs.Comparisons.{holds, text_order, same_name, name_comparison, value_comparison, general_comparison};

use crate::atoms::Atom;
use crate::casts::{WRONG_TYPE, spelled_boolean, spelled_integer};
use std::cmp::Ordering;
use xt_names::{Code, CompareOp, Name, Text};

/// Compares two values (XPath 2.0, 3.5.1). An untyped one counts as a text. Texts stand in the order of their code
/// points and false before true; QNames are equal or not. All else is XPTY0004.
#[tactic(auto, unfolding(crate::specs::Comparisons::value_comparison))]
pub fn value_compare(op: CompareOp, a: &Atom, b: &Atom) -> Result<bool, Code>
    ensures { result ≡ value_comparison op a.now b.now }
{
    match (a, b) {
        (Atom::Str(x) | Atom::Untyped(x), Atom::Str(y) | Atom::Untyped(y)) => {
            Ok(compares_texts(op, x, y))
        }
        (Atom::Int(x), Atom::Int(y)) => Ok(holds(op, x.cmp(y))),
        (Atom::Bool(x), Atom::Bool(y)) => Ok(holds(op, x.cmp(y))),
        (Atom::QName(x), Atom::QName(y)) => name_compare(op, x.get(), y.get()),
        _ => Err(WRONG_TYPE),
    }
}

/// Compares a pair of a general comparison (XPath 2.0, 3.5.2): an untyped value beside an integer or a truth value is
/// cast to its type, and is FORG0001 where it has no such cast; then it is as `value_compare` says.
#[tactic(auto, unfolding(crate::specs::Comparisons::general_comparison))]
pub fn general_compare(op: CompareOp, a: &Atom, b: &Atom) -> Result<bool, Code>
    ensures { result ≡ general_comparison op a.now b.now }
{
    match (a, b) {
        (Atom::Untyped(x), Atom::Int(_)) => value_compare(op, &Atom::Int(spelled_integer(x)?), b),
        (Atom::Int(_), Atom::Untyped(y)) => value_compare(op, a, &Atom::Int(spelled_integer(y)?)),
        (Atom::Untyped(x), Atom::Bool(_)) => value_compare(op, &Atom::Bool(spelled_boolean(x)?), b),
        (Atom::Bool(_), Atom::Untyped(y)) => value_compare(op, a, &Atom::Bool(spelled_boolean(y)?)),
        _ => value_compare(op, a, b),
    }
}

/// Whether the comparison is true of two values that stand in this order.
#[tactic(auto, unfolding(crate::specs::Comparisons::holds))]
pub fn holds(op: CompareOp, order: Ordering) -> bool
    ensures { result ≡ holds op order }
{
    match op {
        CompareOp::Eq => order.is_eq(),
        CompareOp::Ne => order.is_ne(),
        CompareOp::Lt => order.is_lt(),
        CompareOp::Le => order.is_le(),
        CompareOp::Gt => order.is_gt(),
        CompareOp::Ge => order.is_ge(),
    }
}

/// How two texts stand in the order of their code points.
#[tactic(auto, unfolding(crate::specs::Comparisons::text_order))]
pub fn text_order(a: &str, b: &str) -> Ordering
    ensures { result ≡ text_order (chars a.now) (chars b.now) }
{
    a.cmp(b)
}

// Texts of different lengths are told apart at once.
fn compares_texts(op: CompareOp, a: &Text, b: &Text) -> bool
    ensures { result ≡ holds op (text_order a.now b.now) }
{
    match op {
        CompareOp::Eq => a == b,
        CompareOp::Ne => a != b,
        _ => holds(op, text_order(a.as_str(), b.as_str())),
    }
}

/// Whether two names have the same uri and local part.
#[tactic(auto, unfolding(crate::specs::Comparisons::same_name))]
pub fn same_name(a: &Name, b: &Name) -> bool
    ensures { result ≡ same_name a.now b.now }
{
    a == b
}

#[tactic(auto, unfolding(crate::specs::Comparisons::name_comparison))]
fn name_compare(op: CompareOp, a: &Name, b: &Name) -> Result<bool, Code>
    ensures { result ≡ name_comparison op a.now b.now }
{
    match op {
        CompareOp::Eq => Ok(same_name(a, b)),
        CompareOp::Ne => Ok(!same_name(a, b)),
        CompareOp::Lt | CompareOp::Le | CompareOp::Gt | CompareOp::Ge => Err(WRONG_TYPE),
    }
}

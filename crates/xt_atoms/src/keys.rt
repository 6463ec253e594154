// Equal keys, and the kinds of sort columns.
ghost use Rattle.std.specs.Prelude.{◌≡◌};
ghost use Rattle.xt_atoms.specs.Keys.{key_same, sort_class};

use crate::atoms::Atom;
use crate::comparisons::same_name;

/// What the atoms of one sort column have in common (XSLT 2.0, 13.1).
#[derive(Clone, Copy, PartialEq, Eq, Debug)]
pub enum SortClass {
    /// Strings and untyped atoms.
    Text,
    /// Integers.
    Int,
    /// Truth values.
    Bool,
}

/// Whether two atoms are the same key (XSLT 2.0, 14.3 and 16.3): texts, untyped or not, by their characters, other atoms
/// by kind and value.
#[tactic(auto, unfolding(crate::specs::Keys::key_same))]
pub fn key_same(a: &Atom, b: &Atom) -> bool
    ensures { result ≡ key_same a.now b.now }
{
    match (a, b) {
        (Atom::Str(x) | Atom::Untyped(x), Atom::Str(y) | Atom::Untyped(y)) => x == y,
        (Atom::Int(x), Atom::Int(y)) => x == y,
        (Atom::Bool(x), Atom::Bool(y)) => x == y,
        (Atom::QName(x), Atom::QName(y)) => same_name(x.get(), y.get()),
        _ => false,
    }
}

/// The class in which the atom is sorted; None exactly for a QName, which has no order.
#[tactic(auto, unfolding(crate::specs::Keys::sort_class))]
pub fn sort_class(a: &Atom) -> Option<SortClass>
    ensures { result ≡ sort_class a.now }
{
    match a {
        Atom::Str(_) | Atom::Untyped(_) => Some(SortClass::Text),
        Atom::Int(_) => Some(SortClass::Int),
        Atom::Bool(_) => Some(SortClass::Bool),
        Atom::QName(_) => None,
    }
}

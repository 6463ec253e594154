ghost use Rattle.std.specs.Prelude.{◌≡◌, IfOk};
ghost use Rattle.std.specs.Cmp.{IsEquivalence};
ghost use Rattle.xt_atoms.specs.Keys.{key_same};
ghost use Rattle.xt_atoms.specs.declared.atoms.Atom.{Atom as AnAtom};
ghost use Rattle.order_group.specs.AtomKeys.Keys.{key_of};

use std::alloc::AllocError;
use xt_atoms::Atom;
use xt_names::{Name, Text};

/// What of an atom counts as a key (XSLT 2.0, 14.3 and 16.3): of a text its characters, untyped or
/// not, and of other atoms kind and value. Two of them are equal exactly where `key_same` is true
/// of the atoms.
#[derive(Drop, PartialEq, Eq, Hash)]
pub enum AtomKey {
    Str(Text),
    Int(i64),
    Bool(bool),
    QName(Name),
}

impl AtomKey {
    /// The key that the atom is. It shares the atom's parts.
    #[tactic(auto, unfolding(crate::specs::AtomKeys::Keys::key_of))]
    pub fn of(atom: &Atom) -> Result<AtomKey, AllocError>
        ensures { IfOk result (λ key. key ≡ key_of atom.now) }
    {
        match atom {
            Atom::Str(text) | Atom::Untyped(text) => Ok(AtomKey::Str(text.copy()?)),
            Atom::Int(number) => Ok(AtomKey::Int(*number)),
            Atom::Bool(truth) => Ok(AtomKey::Bool(*truth)),
            Atom::QName(name) => Ok(AtomKey::QName(name.get().copy()?)),
        }
    }
}

/// The keys of two atoms are equal exactly where the atoms are the same key, and to be the same key
/// is an equivalence.
pub fn equal_keys_are_the_same_key()
    ensures equal { (a b : AnAtom) →
        ⟦<AtomKey as PartialEq>⟧.eq (key_of a) (key_of b) ≡ key_same a b }
    ensures laws { IsEquivalence key_same }
{}

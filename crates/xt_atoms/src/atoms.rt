ghost use Rattle.std.specs.Prelude.{◌≡◌, IfOk};
ghost use Rattle.xt_atoms.specs.declared.atoms.Atom.TheVariants.{QName};

use std::alloc::{AllocError, Global};
use xt_names::{List, Name, Share, Shared, Text, copy_list};

/// An atomic value (XDM, 2.7).
#[derive(Drop)]
pub enum Atom {
    /// An xs:string.
    Str(Text),
    /// An xs:untypedAtomic.
    Untyped(Text),
    /// An xs:integer.
    Int(i64),
    /// An xs:boolean.
    Bool(bool),
    /// An xs:QName, which is shared so that an atom is small.
    QName(Shared<Name>),
}

impl Atom {
    /// The QName of the name (XDM, 2.7).
    pub fn of_name(alloc: Global, name: Name) -> Result<Atom, AllocError>
        ensures { IfOk result (λ atom. atom ≡ QName name) }
    {
        Ok(Atom::QName(Shared::make(alloc, name)?))
    }

    /// The same atom, the prefix of a QName included.
    pub fn copy(&self) -> Result<Atom, AllocError>
        ensures { IfOk result (λ copy. copy ≡ self.now) }
    {
        match self {
            Atom::Str(text) => Ok(Atom::Str(text.copy()?)),
            Atom::Untyped(text) => Ok(Atom::Untyped(text.copy()?)),
            Atom::Int(number) => Ok(Atom::Int(*number)),
            Atom::Bool(truth) => Ok(Atom::Bool(*truth)),
            Atom::QName(name) => Ok(Atom::QName(name.copy()?)),
        }
    }
}

impl Share for Atom {
    fn share(&self) -> Result<Atom, AllocError> {
        self.copy()
    }
}

/// The list of the same atoms.
pub fn copy_atom_list(items: &List<Atom>) -> Result<List<Atom>, AllocError>
    ensures { IfOk result (λ copy. copy ≡ items.now) }
{
    copy_list(items)
}

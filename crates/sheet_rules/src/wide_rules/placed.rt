// Names that are declared at a precedence.
ghost use Rattle.std.specs.Prelude.{◌≡◌, [], not, IfOk, OnOk};
ghost use Rattle.name_rules.specs.Scopes.{signature};
ghost use Rattle.sheet_rules.specs.WideRules.Doubles.{placed, has_placed, with_placed};

use indexmap::IndexSet;
use name_rules::Signature;
use std::alloc::{AllocError, Global};
use std::marker::Model;
use xt_names::ExprName;

/// A name that is declared at an import precedence, with a number of parameters.
#[derive(Drop, PartialEq, Eq, Hash)]
pub(crate) struct Placed {
    pub(crate) signature: Signature,
    pub(crate) level: u32,
}

/// Names that are declared; contracts see them as a list in the order in which they were added.
#[derive(Drop)]
pub(crate) struct PlacedSet {
    declared: IndexSet<Placed>,
}

impl Model for PlacedSet {
    ghost use Rattle.std.specs.Prelude.{List};
    ghost use Rattle.sheet_rules.specs.declared.wide_rules.placed.Placed.{Placed};

    ghost Value = { List Placed };

    ghost view = { λ s. s.declared.keys };
}

impl PlacedSet {
    pub(crate) fn new(alloc: Global) -> PlacedSet
        ensures { result ≡ [] }
    {
        PlacedSet {
            declared: IndexSet::new(alloc),
        }
    }

    /// Adds a name, and tells whether it stood there at this precedence.
    pub(crate) fn stood(
        &mut self,
        level: u32,
        name: &ExprName,
        arity: usize,
    ) -> Result<bool, AllocError>
        ensures stood { IfOk result (λ stood. stood
            ≡ has_placed self.old (placed (signature name.now arity) level)) }
        ensures ok { OnOk result (self.new
            ≡ with_placed self.old (placed (signature name.now arity) level)) }
    {
        let name = name.copy()?;
        let signature = Signature { name, arity };
        let (_, new) = self.declared.insert_full(Placed { signature, level })?;
        Ok(!new)
    }
}

// Names with numbers.
ghost use Rattle.std.specs.Prelude.{◌≡◌, [], IfOk, OnOk, position};
ghost use Rattle.name_rules.specs.Scopes.{with_function, same_signature, signature};

use indexmap::IndexSet;
use name_rules::Signature;
use std::alloc::{AllocError, Global};
use std::marker::Model;
use xt_names::ExprName;

/// Names with numbers of parameters, each once, in the order in which they were added.
#[derive(Drop)]
pub(crate) struct Table {
    names: IndexSet<Signature>,
}

impl Model for Table {
    ghost use Rattle.std.specs.Prelude.{List};
    ghost use Rattle.name_rules.specs.declared.functions.Signature.{Signature};

    ghost Value = { List Signature };

    ghost view = { λ t. t.names.keys };
}

impl Table {
    pub(crate) fn new(alloc: Global) -> Table
        ensures { result ≡ [] }
    {
        Table {
            names: IndexSet::new(alloc),
        }
    }

    /// Puts the name at the end, unless it is there.
    pub(crate) fn add(&mut self, name: &ExprName, arity: usize) -> Result<(), AllocError>
        ensures { OnOk result (self.new ≡ with_function self.old name.now arity) }
    {
        let name = name.copy()?;
        let (_, _) = self.names.insert_full(Signature { name, arity })?;
        Ok(())
    }

    /// The place of the name, from 0.
    pub(crate) fn place(&self, name: &ExprName, arity: usize) -> Result<Option<usize>, AllocError>
        ensures { IfOk result (λ place. place
            ≡ position (same_signature (signature name.now arity)) self.now) }
    {
        let name = name.copy()?;
        let signature = Signature { name, arity };
        Ok(self.names.get_index_of(&signature))
    }
}

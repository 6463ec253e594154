// Names that have numbers.
ghost use Rattle.std.specs.Prelude.{◌≡◌, [], OnOk, OnErr};
ghost use Rattle.sheet_values.specs.SheetTexts.Names.{with_name, number_of};

use indexmap::IndexSet;
use std::alloc::{AllocError, Global};
use std::marker::Model;
use xt_names::ExprName;

/// Names that have numbers, as modes have (XSLT 2.0, 6.5); contracts see them as a list without
/// doubles, in the order in which they were added.
#[derive(Drop)]
pub struct NameTable {
    names: IndexSet<ExprName>,
}

impl Model for NameTable {
    ghost use Rattle.std.specs.Prelude.{List};
    ghost use Rattle.xt_names.specs.declared.names.ExprName.{ExprName};

    ghost Value = { List ExprName };

    ghost view = { λ t. t.names.keys };
}

impl NameTable {
    /// No names. It takes no memory.
    pub fn new(alloc: Global) -> NameTable
        ensures { result ≡ [] }
    {
        NameTable {
            names: IndexSet::new(alloc),
        }
    }

    /// Puts a name at the end, unless it is there. For want of memory nothing changes.
    pub fn add(&mut self, name: &ExprName) -> Result<(), AllocError>
        ensures ok { OnOk result (self.new ≡ with_name self.old name.now) }
        ensures err { OnErr result (self.new ≡ self.old) }
    {
        let name = name.copy()?;
        let (_, _) = self.names.insert_full(name)?;
        Ok(())
    }

    /// The number of the name, from 0; of one that is not there, how many names there are. No
    /// number is greater than 2^32-1.
    pub fn number(&self, name: &ExprName) -> u32
        ensures { result ≡ number_of self.now name.now }
    {
        let place = self.names.get_index_of(name).unwrap_or(self.names.len());
        u32::try_from(place).unwrap_or(u32::MAX)
    }

    /// The names in the order of their numbers.
    pub fn as_slice(&self) -> &[ExprName]
        ensures { result.now ≡ self.now }
    {
        self.names.as_slice()
    }
}

ghost use Rattle.std.specs.Prelude.{◌≡◌, [], not, IfOk, OnOk, OnErr};
ghost use Rattle.name_rules.specs.Scopes.{has_function, may_be_called, with_function};

use function_table::is_known;
use indexmap::IndexSet;
use std::alloc::{AllocError, Global};
use std::marker::Model;
use xt_names::ExprName;

/// The name of a function, and how many parameters it has. Functions are told apart by both (XQuery 1.0, 4.15).
#[derive(Drop, PartialEq, Eq, Hash)]
pub struct Signature {
    pub name: ExprName,
    pub arity: usize,
}

/// The functions that are declared; contracts see them as a list in the order in which they were first declared.
#[derive(Drop)]
pub struct Functions {
    declared: IndexSet<Signature>,
}

impl Model for Functions {
    ghost use Rattle.std.specs.Prelude.{List};
    ghost use Rattle.name_rules.specs.declared.functions.Signature.{Signature};

    ghost Value = { List Signature };

    ghost view = { λ f. f.declared.keys };
}

impl Functions {
    /// No functions. It takes no memory.
    pub fn new(alloc: Global) -> Functions
        ensures { result ≡ [] }
    {
        Functions {
            declared: IndexSet::new(alloc),
        }
    }

    /// Declares a function, and tells whether there was none of this name with so many parameters. For want of memory
    /// nothing changes.
    pub fn declare(&mut self, name: &ExprName, arity: usize) -> Result<bool, AllocError>
        ensures new { IfOk result (λ new. new ≡ not (has_function self.old name.now arity)) }
        ensures ok { OnOk result (self.new ≡ with_function self.old name.now arity) }
        ensures err { OnErr result (self.new ≡ self.old) }
    {
        let name = name.copy()?;
        let (_, new) = self.declared.insert_full(Signature { name, arity })?;
        Ok(new)
    }

    /// Whether a function of this name is declared with so many parameters.
    pub fn has(&self, name: &ExprName, arity: usize) -> Result<bool, AllocError>
        ensures { IfOk result (λ has. has ≡ has_function self.now name.now arity) }
    {
        let name = name.copy()?;
        let signature = Signature { name, arity };
        Ok(self.declared.contains(&signature))
    }

    /// Whether a function of this name may be called with so many arguments: one that every expression may call, or one
    /// that is declared.
    #[tactic(auto, unfolding(crate::specs::Scopes::may_be_called))]
    pub fn may_be_called(&self, name: &ExprName, arity: usize) -> Result<bool, AllocError>
        ensures { IfOk result (λ may. may ≡ may_be_called self.now name.now arity) }
    {
        if is_known(name, arity) {
            return Ok(true);
        }
        self.has(name, arity)
    }
}

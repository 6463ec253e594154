// Variables and documents that are handed in.
ghost use Rattle.std.specs.Prelude.{◌≡◌, [], IfOk, OnOk, OnErr};
ghost use Rattle.node_walks.specs.Moves.{given};
ghost use Rattle.eval_scopes.specs.Scopes.{binding_of};
ghost use Rattle.plain_eval.specs.Plain.{with_variable};

use doc_set::DocSet;
use eval_scopes::{Variable, copy_variables};
use lazy_seq::Seq;
use std::alloc::{AllocError, Global};
use std::marker::Model;
use xt_names::ExprName;

/// Variables with their values, and the documents that doc() finds (XPath 2.0, 2.1); contracts see
/// the bindings, innermost first, and the documents.
#[derive(Drop)]
pub struct Vars {
    pub(crate) variables: Vec<Variable>,
    pub(crate) documents: DocSet,
}

impl Model for Vars {
    ghost use Rattle.std.specs.Prelude.{[]};
    ghost use Rattle.std.specs.Coded.{codes};
    ghost use Rattle.xt_tree.specs.Forest.{forest_code};
    ghost use Rattle.eval_scopes.specs.Scopes.{pushed_on};
    ghost use Rattle.plain_eval.specs.Bound.{Bound};

    ghost Value = { Bound };

    ghost coded = { Prim.hlevel (codes, forest_code) };

    ghost view = { λ v. record {
      locals = pushed_on [] v.variables.items;
      documents = v.documents;
    } };
}

impl Vars {
    /// No variables and no documents (XPath 2.0, 2.1.2).
    pub fn new(alloc: Global) -> Vars
        ensures { result ≡ record { locals = []; documents = [] } }
    {
        Vars {
            variables: Vec::new(alloc),
            documents: DocSet::new(alloc),
        }
    }

    /// No variables, and these documents (XPath 2.0, 2.1.2).
    pub fn with_set(alloc: Global, set: &DocSet) -> Result<Vars, AllocError>
        ensures { IfOk result (λ vars. vars ≡ record { locals = []; documents = set.now }) }
    {
        Ok(Vars {
            variables: Vec::new(alloc),
            documents: set.copy()?,
        })
    }

    /// Binds a variable within those that are bound (XPath 2.0, 3.1.2); for want of memory all stays
    /// as it was.
    pub fn bind(&mut self, name: &ExprName, value: Seq) -> Result<(), AllocError>
        ensures ok { OnOk result (self.new ≡ with_variable name.now (given value.moves) self.old) }
        ensures err { OnErr result (self.new ≡ self.old) }
    {
        let alloc = *self.variables.allocator();
        self.variables.push(held(alloc, name, value)?)?;
        Ok(())
    }

    /// The same variables and documents, which are shared (XPath 2.0, 2.1.2).
    pub fn copy(&self) -> Result<Vars, AllocError>
        ensures { IfOk result (λ vars. vars ≡ self.now) }
    {
        Ok(Vars {
            variables: copy_variables(*self.variables.allocator(), self.variables.as_slice())?,
            documents: self.documents.copy()?,
        })
    }
}

/// The variable with its value, held so that copies share it.
fn held(alloc: Global, name: &ExprName, value: Seq) -> Result<Variable, AllocError>
    ensures { IfOk result (λ v. binding_of v ≡ (name.now, given value.moves)) }
{
    Ok(Variable {
        name: name.copy()?,
        value: value.share(alloc)?,
    })
}

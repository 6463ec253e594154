// The global variables of a program.
ghost use Rattle.std.specs.Prelude.{◌≡◌, ◌∷◌, [], IfOk, OnOk, Some as there};
ghost use Rattle.indexmap.specs.IndexMap.{get};
ghost use Rattle.xt_names.specs.declared.names.ExprName.{ExprName as AName};
ghost use Rattle.expr_meaning.specs.Env.{look_up};
ghost use Rattle.xt_names.specs.ExprNames.{same_name};
ghost use Rattle.eval_scopes.specs.Bindings.{binding_of};
ghost use Rattle.eval_scopes.specs.Scopes.{value_behind};
ghost use Rattle.eval_scopes.specs.Tables.{place_or, value_there};

use crate::scopes::Variable;
use expr_meaning::lazy_seq::Seq;
use indexmap::IndexMap;
use std::alloc::{AllocError, Global};
use std::marker::Model;
use xt_names::ExprName;

/// The global variables of a program with their values (XQuery 1.0, 4.14), which are found by a
/// table; contracts see the bindings, innermost first.
#[derive(Drop)]
pub struct Globals {
    variables: Vec<Variable>,
    places: IndexMap<ExprName, usize>,
}

impl Model for Globals {
    ghost use Rattle.std.specs.Prelude.{List, []};
    ghost use Rattle.std.specs.Coded.{codes};
    ghost use Rattle.xt_tree.specs.Forest.{forest_code};
    ghost use Rattle.expr_meaning.specs.Env.{Binding};
    ghost use Rattle.eval_scopes.specs.Bindings.{pushed_on};
    ghost use Rattle.eval_scopes.specs.Tables.{IsTableOf};

    ghost Value = { List Binding };

    ghost coded = { Prim.hlevel (codes, forest_code) };

    ghost view = { λ g. pushed_on [] g.variables.items };

    ghost invariant = { λ g. IsTableOf g.variables.items g.places };
}

impl Globals {
    /// None. It takes no memory.
    pub fn new(alloc: Global) -> Globals
        ensures { result ≡ [] }
    {
        Globals {
            variables: Vec::new(alloc),
            places: IndexMap::new(alloc),
        }
    }

    /// These and one more, which is the innermost.
    #[tactic(auto, using(crate::proofs::ScopeLemmas::pushed_last))]
    pub fn with(self, variable: Variable) -> Result<Globals, AllocError>
        ensures { IfOk result (λ globals. globals ≡ binding_of variable ∷ self) }
    {
        let mut variables = self.variables;
        let mut places = self.places;
        put_place(&mut places, &variable.name, variables.len())?;
        variables.push(variable)?;
        Ok(Globals { variables, places })
    }

    /// The value of the innermost variable of the name (XPath 2.0, 3.1.2).
    pub fn find(&self, name: &ExprName) -> Option<&Seq>
        ensures { value_behind result ≡ look_up self.now name.now }
    {
        match self.places.get(name) {
            None => None,
            Some(place) => value_there(self.variables.as_slice(), *place),
        }
    }
}

fn value_there<'a>(variables: &'a [Variable], place: usize) -> Option<&'a Seq>
    ensures { value_behind result ≡ value_there variables.entry.now (there place) }
{
    match variables.get(place) {
        None => None,
        Some(variable) => Some(&variable.value),
    }
}

/// Puts the place of a variable under its name.
fn put_place(
    places: &mut IndexMap<ExprName, usize>,
    name: &ExprName,
    place: usize,
) -> Result<(), AllocError>
    ensures { OnOk result ((n : AName) → get same_name places.new n
        ≡ place_or name.now place (get same_name places.old n) n) }
{
    places.insert(name.copy()?, place)?;
    Ok(())
}

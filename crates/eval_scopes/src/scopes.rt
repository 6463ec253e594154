// The variables that an expression can read.
ghost use Rattle.std.specs.Prelude.{◌≡◌, [], IfOk};
ghost use Rattle.expr_meaning.specs.Env.{look_up};
ghost use Rattle.eval_scopes.specs.Scopes.{bindings, value_behind, pushed_on};

use expr_meaning::lazy_seq::Seq;
use std::alloc::{AllocError, Global};
use xt_names::ExprName;

/// A variable with its value.
#[derive(Drop)]
pub struct Variable {
    pub name: ExprName,
    pub value: Seq,
}

fn copy_variable(variable: &Variable) -> Result<Variable, AllocError>
    ensures { IfOk result (λ copy. copy ≡ variable.now) }
{
    Ok(Variable {
        name: variable.name.copy()?,
        value: variable.value.copy()?,
    })
}

/// The same variables; their values share what they hold (XPath 2.0, 3.1.2).
#[inline(never)]
pub fn copy_variables(alloc: Global, variables: &[Variable]) -> Result<Vec<Variable>, AllocError>
    ensures { IfOk result (λ copy. copy.items ≡ variables.now) }
{
    let mut copy = Vec::with_capacity(alloc, variables.len())?;
    for variable in variables {
        copy.push(copy_variable(variable)?)?;
    }
    Ok(copy)
}

/// The variables in scope at a place (XPath 2.0, 3.1.2).
#[derive(Clone, Copy)]
pub enum Scope<'a> {
    /// None.
    Outermost,
    /// These, of which the last is innermost, within the others.
    Inner {
        variables: &'a [Variable],
        outer: &'a Scope<'a>,
    },
}

/// The value of the innermost variable of the name (XPath 2.0, 3.1.2).
#[tactic(auto, using(crate::proofs::ScopeLemmas::found_within))]
pub fn look_up<'a>(scope: &'a Scope<'a>, name: &ExprName) -> Option<&'a Seq>
    ensures { value_behind result ≡ look_up (bindings scope.entry.now) name.now }
{
    match scope {
        Scope::Outermost => None,
        Scope::Inner { variables, outer } => match look_up_last(variables, name) {
            Some(value) => Some(value),
            None => look_up(outer, name),
        },
    }
}

/// The value of the last one of the name.
fn look_up_last<'a>(variables: &'a [Variable], name: &ExprName) -> Option<&'a Seq>
    ensures { value_behind result ≡ look_up (pushed_on [] variables.entry.now) name.now }
{
    let mut left = variables.len();
    while left > 0 {
        left -= 1;
        let variable = &variables[left];
        if variable.name == *name {
            return Some(&variable.value);
        }
    }
    None
}

// Values of forms that evaluate no expression.
ghost use Rattle.std.specs.Prelude.{ℕ, ◌∷◌, [], Bool};
ghost use Rattle.xt_atoms.specs.declared.atoms.Atom.TheVariants.{Str};
ghost use Rattle.xdm_items.specs.declared.items.Item.TheVariants.{Atom as as_atom};
ghost use Rattle.xdm_items.specs.FunctionArguments.Answers.{of_integer};
ghost use Rattle.expr_meaning.specs.Outcomes.Outcome.{Outcome, Ends};
ghost use Rattle.expr_meaning.specs.Env.{Calls, Keys};
ghost use Rattle.expr_meaning.specs.Logic.{as_items};
ghost use Rattle.expr_meaning.specs.Values.{variable, context};
ghost use Rattle.expr_meaning.specs.Paths.{root_of};
ghost use Rattle.eval_lates.specs.EvalScopes.Answers.{Answers};
ghost use Rattle.eval_lates.specs.EvalScopes.Scopes.{env_of, program_of};
ghost use Rattle.eval_steps.specs.ValueSlots.Slots.{Leaves};

use crate::steps::{literal_integer, literal_text, truth_list};
use crate::value_slots::slots::put;
use eval_lates::eval_scopes::{Env, EvalFault, Fixed, context_item, document_root, variable_list};
use std::alloc::Global;
use xdm_items::ItemList;
use xt_names::{ExprName, Text};

/// Puts the list of an integer's literal (XPath 2.0, 3.1.1).
#[inline(never)]
pub fn put_integer(alloc: Global, number: i64, value: &mut ItemList) -> Result<(), EvalFault>
    ensures { (k : ℕ) → Leaves result value.new k (Ends (of_integer number) k) }
{
    put(literal_integer(alloc, number), value)
}

/// Puts the list of a literal (XPath 2.0, 3.1.1).
#[inline(never)]
pub fn put_text(alloc: Global, text: &Text, value: &mut ItemList) -> Result<(), EvalFault>
    ensures { (k : ℕ) → Leaves result value.new k (Ends (as_atom (Str text.now) ∷ []) k) }
{
    put(literal_text(alloc, text), value)
}

/// Puts the list of a truth value, or gives the fault of what gave it (XPath 2.0, 3.6).
#[inline(never)]
pub fn put_truth(
    alloc: Global,
    truth: Result<bool, EvalFault>,
    value: &mut ItemList,
) -> Result<(), EvalFault>
    ensures { (k : ℕ) (o : Outcome Bool) → Answers truth k o
        → Leaves result value.new k (as_items o) }
{
    put(truth_list(alloc, truth), value)
}

/// Puts the list of a variable (XPath 2.0, 3.1.2): XPDY0002 where it has no value.
#[inline(never)]
pub fn put_variable(
    alloc: Global,
    fixed: &Fixed,
    env: &Env,
    name: &ExprName,
    value: &mut ItemList,
) -> Result<(), EvalFault>
    ensures { (calls : Calls) (keys : Keys) (k : ℕ) → Leaves result value.new k
        (variable (program_of fixed.now calls keys) name.now (env_of env.now) k) }
{
    put(variable_list(alloc, fixed, env, name), value)
}

/// Puts the context item (XPath 2.0, 3.1.4): XPDY0002 where there is none.
#[inline(never)]
pub fn put_context(alloc: Global, env: &Env, value: &mut ItemList) -> Result<(), EvalFault>
    ensures { (k : ℕ) → Leaves result value.new k (context (env_of env.now) k) }
{
    put(context_item(alloc, env), value)
}

/// Puts the root of the context node's tree (XPath 2.0, 3.2), with the errors of
/// `eval_scopes::document_root`.
#[inline(never)]
pub fn put_root(alloc: Global, env: &Env, value: &mut ItemList) -> Result<(), EvalFault>
    ensures { (k : ℕ) → Leaves result value.new k (root_of (env_of env.now) k) }
{
    put(document_root(alloc, env), value)
}

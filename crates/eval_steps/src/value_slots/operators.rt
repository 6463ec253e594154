// Operators whose value replaces an operand.
ghost use Rattle.std.specs.Prelude.{ℕ};
ghost use Rattle.expr_meaning.specs.Outcomes.Outcome.{step_outcome};
ghost use Rattle.eval_lates.specs.OperatorValues.Types.{instance_value, treated_value};
ghost use Rattle.eval_lates.specs.EvalScopes.EvalValues.Operators.{value_of_one, value_of_two};
ghost use Rattle.eval_steps.specs.ValueSlots.Slots.{Leaves};

use crate::value_slots::slots::take;
use eval_lates::eval_scopes::EvalFault;
use eval_lates::eval_scopes::eval_values::{OneOperator, Operator, apply, apply_to_one};
use eval_lates::operator_values::{instance, treated};
use std::alloc::Global;
use xdm_items::ItemList;
use xt_types::SeqType;

/// Puts the value of an operator in place of its left operand (XPath 2.0, 3.3 to 3.5).
#[inline(never)]
pub fn apply_to(
    alloc: Global,
    operator: Operator,
    right: &ItemList,
    value: &mut ItemList,
) -> Result<(), EvalFault>
    ensures { (k : ℕ) → Leaves result value.new k
        (step_outcome (value_of_two operator value.old right.now) k) }
{
    *value = apply(alloc, operator, &*value, right)?;
    Ok(())
}

/// Puts the value of an operator in place of its operand (XPath 2.0, 3.4 and 3.10).
#[inline(never)]
pub fn apply_alone(
    alloc: Global,
    operator: OneOperator,
    value: &mut ItemList,
) -> Result<(), EvalFault>
    ensures { (k : ℕ) → Leaves result value.new k
        (step_outcome (value_of_one operator value.old) k) }
{
    *value = apply_to_one(alloc, operator, &*value)?;
    Ok(())
}

/// Puts whether the list is of the type in its place (XPath 2.0, 3.10.1).
#[inline(never)]
pub fn check_instance(alloc: Global, of: &SeqType, value: &mut ItemList) -> Result<(), EvalFault>
    ensures { (k : ℕ) → Leaves result value.new k
        (step_outcome (instance_value of.now value.old) k) }
{
    *value = instance(alloc, &*value, of)?;
    Ok(())
}

/// Leaves the list where it is of the type (XPath 2.0, 3.10.5); XPDY0050 where it is not.
#[inline(never)]
pub fn treat(alloc: Global, to: &SeqType, value: &mut ItemList) -> Result<(), EvalFault>
    ensures { (k : ℕ) → Leaves result value.new k
        (step_outcome (treated_value to.now value.old) k) }
{
    let operand = take(alloc, value);
    *value = treated(operand, to)?;
    Ok(())
}

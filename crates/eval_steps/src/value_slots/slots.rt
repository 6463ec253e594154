// What is put into a list that the caller holds.
ghost use Rattle.std.specs.Prelude.{◌≡◌, ◌++◌, ℕ, List, OnOk, []};
ghost use Rattle.expr_meaning.specs.Outcomes.Outcome.{Outcome};
ghost use Rattle.xdm_items.specs.declared.items.Item.{Item};
ghost use Rattle.eval_lates.specs.EvalScopes.Answers.{Answers};
ghost use Rattle.eval_steps.specs.ValueSlots.Slots.{Leaves};

use eval_lates::eval_scopes::EvalFault;
use eval_lates::eval_scopes::eval_values::append;
use std::alloc::{AllocError, Global};
use std::mem::replace;
use xdm_items::ItemList;

/// Puts the value that was found in place of what is there.
pub fn put(found: Result<ItemList, EvalFault>, value: &mut ItemList) -> Result<(), EvalFault>
    ensures { (k : ℕ) (o : Outcome (List Item)) → Answers found k o → Leaves result value.new k o }
{
    *value = found?;
    Ok(())
}

/// Leaves the empty list.
#[inline(never)]
pub fn clear(alloc: Global, list: &mut ItemList)
    ensures { list.new ≡ [] }
{
    *list = ItemList::new(alloc);
}

/// Takes the list, and leaves the empty one.
pub(crate) fn take(alloc: Global, list: &mut ItemList) -> ItemList
    ensures { result ≡ list.old }
{
    replace(list, ItemList::new(alloc))
}

/// Moves the items of the second list after those of the first (XPath 2.0, 3.3.1). Where memory
/// runs
/// out, what they hold is open.
#[inline(never)]
pub fn join(alloc: Global, list: &mut ItemList, more: &mut ItemList) -> Result<(), AllocError>
    ensures { OnOk result (list.new ≡ list.old ++ more.old) }
{
    let first = take(alloc, list);
    *list = append(first, take(alloc, more))?;
    Ok(())
}

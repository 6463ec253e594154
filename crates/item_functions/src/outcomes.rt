// What calls of functions give.
ghost use Rattle.std.specs.Prelude.{◌≡◌, IfOk, Some};
ghost use Rattle.xt_atoms.specs.Casts.{Answers};
ghost use Rattle.item_functions.specs.Outcomes.{as_integer, as_truth, of_optional_atom, of_optional_node};

use std::alloc::{AllocError, Global};
use xdm_items::function_arguments::{atom_list, integer_list, no_items, truth_list};
use xdm_items::{Item, ItemList};
use xt_atoms::{Atom, ValueFault};
use xt_names::Code;
use xt_tree::Node;

pub(crate) fn integer_outcome(
    alloc: Global,
    number: Result<i64, Code>,
) -> Result<ItemList, ValueFault>
    ensures { Answers (as_integer number) result }
{
    match number {
        Ok(number) => Ok(integer_list(alloc, number)?),
        Err(code) => Err(ValueFault::Error(code)),
    }
}

pub(crate) fn truth_outcome(
    alloc: Global,
    truth: Result<bool, Code>,
) -> Result<ItemList, ValueFault>
    ensures { Answers (as_truth truth) result }
{
    match truth {
        Ok(truth) => Ok(truth_list(alloc, truth)?),
        Err(code) => Err(ValueFault::Error(code)),
    }
}

pub(crate) fn optional_atom_list(alloc: Global, atom: Option<Atom>) -> Result<ItemList, AllocError>
    ensures { IfOk result (λ items. items ≡ of_optional_atom atom) }
{
    match atom {
        Some(atom) => atom_list(alloc, atom),
        None => Ok(no_items(alloc)),
    }
}

pub(crate) fn node_list(alloc: Global, node: Node) -> Result<ItemList, AllocError>
    ensures { IfOk result (λ items. items ≡ of_optional_node (Some node)) }
{
    Ok(ItemList::one(alloc, Item::Node(node)))
}

// Functions on numbers, truth values and nodes.
ghost use Rattle.std.specs.Prelude.{Ok, option_map};
ghost use Rattle.xt_names.specs.declared.kinds.CompareOp.TheVariants as op;
ghost use Rattle.xt_atoms.specs.Casts.{Answers};
ghost use Rattle.item_functions.specs.NodeFunctions.Roots.{root_of as root_place};
ghost use Rattle.item_functions.specs.OnValues.{abs_of, absolute_of, boolean_of, not_of, root_of};
ghost use Rattle.item_functions.specs.OnValues.{extreme_atom, extreme_of, sum_of, sum_or, sum_with_of};
ghost use Rattle.item_functions.specs.Outcomes.{of_optional_node};

use crate::outcomes::{integer_outcome, node_list, optional_atom_list, truth_outcome};
use crate::{node_functions as nodes, number_functions as numbers};
use std::alloc::Global;
use xdm_items::function_arguments::{
    are_atoms, atoms, no_items, optional_atom, optional_integer, optional_node, truth_list,
};
use xdm_items::{ItemList, ebv};
use xt_atoms::{Atom, ValueFault};
use xt_tree::Node;

/// The sum (`fn:sum`, Functions and Operators, 15.4.5).
#[tactic(auto, unfolding(crate::specs::OnValues::sum_of))]
pub fn sum(alloc: Global, items: &ItemList) -> Result<ItemList, ValueFault>
    ensures { Answers (sum_of items.now) result }
{
    if are_atoms(items) {
        return integer_outcome(alloc, numbers::sum(items.as_slice()));
    }
    let atoms = atoms(alloc, items)?;
    integer_outcome(alloc, numbers::sum(atoms.as_slice()))
}

/// The sum, with a value for that of no item (`fn:sum`, Functions and Operators, 15.4.5).
#[tactic(auto, unfolding(crate::specs::OnValues::sum_with_of))]
pub fn sum_with(alloc: Global, items: &ItemList, zero: &ItemList) -> Result<ItemList, ValueFault>
    ensures { Answers (sum_with_of items.now zero.now) result }
{
    let atoms = atoms(alloc, items)?;
    let empty_sum = optional_atom(alloc, zero)?;
    sum_or(alloc, &atoms, empty_sum)
}

/// The greatest value (`fn:max`, Functions and Operators, 15.4.3).
#[tactic(auto, unfolding(crate::specs::OnValues::extreme_of))]
pub fn max(alloc: Global, items: &ItemList) -> Result<ItemList, ValueFault>
    ensures { Answers (extreme_of op.Gt items.now) result }
{
    if are_atoms(items) {
        return greatest_atom(alloc, items);
    }
    let atoms = atoms(alloc, items)?;
    greatest_atom(alloc, &atoms)
}

/// The least value (`fn:min`, Functions and Operators, 15.4.4).
#[tactic(auto, unfolding(crate::specs::OnValues::extreme_of))]
pub fn min(alloc: Global, items: &ItemList) -> Result<ItemList, ValueFault>
    ensures { Answers (extreme_of op.Lt items.now) result }
{
    if are_atoms(items) {
        return least_atom(alloc, items);
    }
    let atoms = atoms(alloc, items)?;
    least_atom(alloc, &atoms)
}

/// The absolute value (`fn:abs`, Functions and Operators, 6.4.1).
#[tactic(auto, unfolding(crate::specs::OnValues::abs_of))]
pub fn abs(alloc: Global, argument: &ItemList) -> Result<ItemList, ValueFault>
    ensures { Answers (abs_of argument.now) result }
{
    let number = optional_integer(alloc, argument)?;
    absolute_of(alloc, number)
}

/// The truth value (`fn:boolean`, Functions and Operators, 15.1.1).
#[tactic(auto, unfolding(crate::specs::OnValues::boolean_of))]
pub fn boolean(alloc: Global, items: &ItemList) -> Result<ItemList, ValueFault>
    ensures { Answers (boolean_of items.now) result }
{
    truth_outcome(alloc, ebv(items))
}

/// The opposite of the truth value (`fn:not`, Functions and Operators, 9.3.1).
#[tactic(auto, unfolding(crate::specs::OnValues::not_of))]
pub fn not(alloc: Global, items: &ItemList) -> Result<ItemList, ValueFault>
    ensures { Answers (not_of items.now) result }
{
    match ebv(items) {
        Ok(truth) => Ok(truth_list(alloc, !truth)?),
        Err(code) => Err(ValueFault::Error(code)),
    }
}

/// The root of the node's tree (`fn:root`, Functions and Operators, 14.9).
#[tactic(auto, unfolding(crate::specs::OnValues::root_of))]
pub fn root(alloc: Global, argument: &ItemList) -> Result<ItemList, ValueFault>
    ensures { Answers (root_of argument.now) result }
{
    let node = optional_node(alloc, argument)?;
    root_list(alloc, node)
}

fn sum_or(alloc: Global, atoms: &ItemList, zero: Option<Atom>) -> Result<ItemList, ValueFault>
    ensures { Answers (sum_or atoms.now zero) result }
{
    match atoms.as_slice() {
        [] => Ok(optional_atom_list(alloc, zero)?),
        items => integer_outcome(alloc, numbers::sum(items)),
    }
}

fn greatest_atom(alloc: Global, atoms: &ItemList) -> Result<ItemList, ValueFault>
    ensures { Answers (extreme_atom op.Gt atoms.now) result }
{
    let greatest = numbers::max(alloc, atoms.as_slice())?;
    Ok(optional_atom_list(alloc, greatest)?)
}

fn least_atom(alloc: Global, atoms: &ItemList) -> Result<ItemList, ValueFault>
    ensures { Answers (extreme_atom op.Lt atoms.now) result }
{
    let least = numbers::min(alloc, atoms.as_slice())?;
    Ok(optional_atom_list(alloc, least)?)
}

fn absolute_of(alloc: Global, number: Option<i64>) -> Result<ItemList, ValueFault>
    ensures { Answers (absolute_of number) result }
{
    match number {
        Some(number) => integer_outcome(alloc, numbers::abs(number)),
        None => Ok(no_items(alloc)),
    }
}

fn root_list(alloc: Global, node: Option<Node>) -> Result<ItemList, ValueFault>
    ensures { Answers (Ok (of_optional_node (option_map root_place node))) result }
{
    match node {
        Some(node) => Ok(node_list(alloc, nodes::root(alloc, &node)?)?),
        None => Ok(no_items(alloc)),
    }
}

// Steps along axes, and what a path gives.
ghost use Rattle.std.specs.Prelude.{◌≡◌};
ghost use Rattle.std.specs.List.{list_all};
ghost use Rattle.xt_atoms.specs.Casts.{Answers};
ghost use Rattle.expr_meaning.specs.Paths.{step_items, path_value, is_atom};
ghost use Rattle.eval_scopes.specs.EvalValues.Steps.{checked_path};

use expr_meaning::lazy_seq::Seq;
use expr_meaning::operator_values::{are_nodes, in_order};
use node_axes::Cursor;
use std::alloc::Global;
use xdm_items::{Item, ItemList};
use xt_atoms::ValueFault;
use xt_names::{Code, DynamicCode};
use xt_types::{Axis, Test};

/// The nodes of the axis that pass the test, in the order of the axis (XPath 2.0, 3.2.1); XPTY0020
/// of an atom.
#[tactic(auto, unfolding(node_axes::specs::StepWalks::Hits::hits_ahead))]
pub fn step(alloc: Global, axis: Axis, test: &Test, from: &Item) -> Result<ItemList, ValueFault>
    ensures { Answers (step_items axis test.now from.now) result }
{
    match from {
        Item::Atom(_) => Err(ValueFault::Error(Code::Dynamic(DynamicCode::XPTY0020))),
        Item::Node(node) => {
            let cursor = Cursor::new(alloc, node, axis, test.copy()?)?;
            Ok(Seq::of_cursor(alloc, cursor)?.to_list(alloc)?)
        }
    }
}

fn is_atom(item: &Item) -> bool
    ensures { result ≡ is_atom item.now }
{
    match item {
        Item::Node(_) => false,
        Item::Atom(_) => true,
    }
}

fn are_atoms(items: &[Item]) -> bool
    ensures { result ≡ list_all is_atom items.now }
{
    items.iter().all(|item| is_atom(item))
}

/// The list itself where it may stand before `/`, which takes nodes alone; XPTY0019 of all others
/// (XPath 2.0, 3.2).
pub fn path_nodes(items: &ItemList) -> Result<(), Code>
    ensures { result ≡ checked_path items.now }
{
    if are_nodes(items.as_slice()) {
        Ok(())
    } else {
        Err(Code::Dynamic(DynamicCode::XPTY0019))
    }
}

/// What `/` gives of the lists of its right side: nodes in document order, each once, atoms as they
/// come, and XPTY0018 of both together (XPath 2.0, 3.2).
pub fn path_value(alloc: Global, items: ItemList) -> Result<ItemList, ValueFault>
    ensures { Answers (path_value items) result }
{
    if are_nodes(items.as_slice()) {
        Ok(in_order(alloc, items)?)
    } else if are_atoms(items.as_slice()) {
        Ok(items)
    } else {
        drop(items);
        Err(ValueFault::Error(Code::Dynamic(DynamicCode::XPTY0018)))
    }
}

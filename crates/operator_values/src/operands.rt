// Operands.
ghost use Rattle.std.specs.Prelude.{◌≡◌, map, IfOk};
ghost use Rattle.xt_atoms.specs.Casts.{Answers};
ghost use Rattle.operator_values.specs.Operands.{atom_of, optional_atom, optional_node};

use std::alloc::{AllocError, Global};
use xdm_items::{Item, typed_value};
use xt_atoms::{Atom, ValueFault};
use xt_names::{Code, DynamicCode};
use xt_tree::Node;

/// The error of an operand that has another type than is asked for.
pub(crate) const WRONG_TYPE: ValueFault = ValueFault::Error(Code::Dynamic(DynamicCode::XPTY0004));

/// The typed value of the item, which is one atom (XPath 2.0, 2.4.2).
pub fn atom_of(alloc: Global, item: &Item) -> Result<Atom, AllocError>
    ensures { IfOk result (λ atom. atom ≡ atom_of item.now) }
{
    match item {
        Item::Node(node) => typed_value(alloc, node),
        Item::Atom(atom) => atom.copy(),
    }
}

/// The typed values of the items.
pub(crate) fn atoms_of(alloc: Global, items: &[Item]) -> Result<Vec<Atom>, AllocError>
    ensures { IfOk result (λ atoms. atoms.items ≡ map atom_of items.now) }
{
    let mut atoms = Vec::with_capacity(alloc, items.len())?;
    for item in items {
        atoms.push(atom_of(alloc, item)?)?;
    }
    Ok(atoms)
}

/// The typed value of at most one item.
#[tactic(auto, unfolding(crate::specs::Operands::optional_atom))]
pub(crate) fn optional_atom(alloc: Global, items: &[Item]) -> Result<Option<Atom>, ValueFault>
    ensures { Answers (optional_atom items.now) result }
{
    match items {
        [] => Ok(None),
        [only] => Ok(Some(atom_of(alloc, only)?)),
        [_, _, ..] => Err(WRONG_TYPE),
    }
}

/// At most one node.
#[tactic(auto, unfolding(crate::specs::Operands::optional_node))]
pub(crate) fn optional_node(items: &[Item]) -> Result<Option<Node>, ValueFault>
    ensures { Answers (optional_node items.now) result }
{
    match items {
        [] => Ok(None),
        [only] => match only {
            Item::Node(node) => Ok(Some(node.copy()?)),
            Item::Atom(_) => Err(WRONG_TYPE),
        },
        [_, _, ..] => Err(WRONG_TYPE),
    }
}

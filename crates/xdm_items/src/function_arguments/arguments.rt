// Arguments that are one value or none.
ghost use Rattle.xt_atoms.specs.Casts.{Answers};
ghost use Rattle.xdm_items.specs.FunctionArguments.Arguments.{text_argument, optional_text_argument, text_or_empty_argument, integer_argument, optional_integer_argument, atom_argument, optional_atom_argument, optional_name_argument, optional_node_argument};
ghost use Rattle.xdm_items.specs.FunctionArguments.Arguments.{of_only, of_at_most_one, text_of_item, integer_of_item, atom_of_item};

use crate::ItemList;
use crate::function_arguments::conversions::{atomic, converted, is_atomic};
use crate::function_arguments::forms::{
    WRONG_TYPE, atom_of_item, integer_of_item, name_of_item, node_of_item, text_of_item,
};
use crate::xt_tree::Node;
use std::alloc::Global;
use xt_atoms::{Atom, ValueFault};
use xt_names::{AtomType, Name, Text};
use xt_types::{Count, ItemType, SeqType, Test};

/// The argument as one value of the type xs:string.
#[tactic(auto, unfolding(crate::specs::FunctionArguments::Arguments::text_argument))]
pub fn text(alloc: Global, items: &ItemList) -> Result<Text, ValueFault>
    ensures { Answers (text_argument items.now) result }
{
    let made = atomic(alloc, items, AtomType::Str, Count::One)?;
    match made.as_slice() {
        [only] => text_of_item(only),
        _ => Err(WRONG_TYPE),
    }
}

/// The argument as at most one value of the type xs:string.
#[tactic(auto, unfolding(crate::specs::FunctionArguments::Arguments::optional_text_argument))]
pub fn optional_text(alloc: Global, items: &ItemList) -> Result<Option<Text>, ValueFault>
    ensures { Answers (optional_text_argument items.now) result }
{
    if is_atomic(items, AtomType::Str, Count::Opt) {
        return text_if_any(items);
    }
    let made = atomic(alloc, items, AtomType::Str, Count::Opt)?;
    text_if_any(&made)
}

fn text_if_any(items: &ItemList) -> Result<Option<Text>, ValueFault>
    ensures { Answers (of_at_most_one text_of_item items.now) result }
{
    match items.as_slice() {
        [] => Ok(None),
        [only] => Ok(Some(text_of_item(only)?)),
        _ => Err(WRONG_TYPE),
    }
}

/// The argument as one value of the type xs:integer.
#[tactic(auto, unfolding(crate::specs::FunctionArguments::Arguments::integer_argument))]
pub fn integer(alloc: Global, items: &ItemList) -> Result<i64, ValueFault>
    ensures { Answers (integer_argument items.now) result }
{
    if is_atomic(items, AtomType::Int, Count::One) {
        return only_integer(items);
    }
    let made = atomic(alloc, items, AtomType::Int, Count::One)?;
    only_integer(&made)
}

fn only_integer(items: &ItemList) -> Result<i64, ValueFault>
    ensures { Answers (of_only integer_of_item items.now) result }
{
    match items.as_slice() {
        [only] => integer_of_item(only),
        _ => Err(WRONG_TYPE),
    }
}

/// The argument as at most one value of the type xs:integer.
#[tactic(auto, unfolding(crate::specs::FunctionArguments::Arguments::optional_integer_argument))]
pub fn optional_integer(alloc: Global, items: &ItemList) -> Result<Option<i64>, ValueFault>
    ensures { Answers (optional_integer_argument items.now) result }
{
    let made = atomic(alloc, items, AtomType::Int, Count::Opt)?;
    match made.as_slice() {
        [] => Ok(None),
        [only] => Ok(Some(integer_of_item(only)?)),
        _ => Err(WRONG_TYPE),
    }
}

/// The argument as one value of the type xs:anyAtomicType.
#[tactic(auto, unfolding(crate::specs::FunctionArguments::Arguments::atom_argument))]
pub fn atom(alloc: Global, items: &ItemList) -> Result<Atom, ValueFault>
    ensures { Answers (atom_argument items.now) result }
{
    let made = atomic(alloc, items, AtomType::Any, Count::One)?;
    match made.as_slice() {
        [only] => atom_of_item(only),
        _ => Err(WRONG_TYPE),
    }
}

/// The argument as at most one value of the type xs:anyAtomicType.
#[tactic(auto, unfolding(crate::specs::FunctionArguments::Arguments::optional_atom_argument))]
pub fn optional_atom(alloc: Global, items: &ItemList) -> Result<Option<Atom>, ValueFault>
    ensures { Answers (optional_atom_argument items.now) result }
{
    if is_atomic(items, AtomType::Any, Count::Opt) {
        return atom_if_any(items);
    }
    let made = atomic(alloc, items, AtomType::Any, Count::Opt)?;
    atom_if_any(&made)
}

fn atom_if_any(items: &ItemList) -> Result<Option<Atom>, ValueFault>
    ensures { Answers (of_at_most_one atom_of_item items.now) result }
{
    match items.as_slice() {
        [] => Ok(None),
        [only] => Ok(Some(atom_of_item(only)?)),
        _ => Err(WRONG_TYPE),
    }
}

/// The argument as at most one value of the type xs:QName.
#[tactic(auto, unfolding(crate::specs::FunctionArguments::Arguments::optional_name_argument))]
pub fn optional_name(alloc: Global, items: &ItemList) -> Result<Option<Name>, ValueFault>
    ensures { Answers (optional_name_argument items.now) result }
{
    let made = atomic(alloc, items, AtomType::QName, Count::Opt)?;
    match made.as_slice() {
        [] => Ok(None),
        [only] => Ok(Some(name_of_item(only)?)),
        _ => Err(WRONG_TYPE),
    }
}

/// The argument as at most one node.
#[tactic(auto, unfolding(crate::specs::FunctionArguments::Arguments::optional_node_argument))]
pub fn optional_node(alloc: Global, items: &ItemList) -> Result<Option<Node>, ValueFault>
    ensures { Answers (optional_node_argument items.now) result }
{
    let made = converted(
        alloc,
        items,
        &SeqType::Of(ItemType::Kind(Test::Node), Count::Opt),
    )?;
    match made.as_slice() {
        [] => Ok(None),
        [only] => Ok(Some(node_of_item(only)?)),
        _ => Err(WRONG_TYPE),
    }
}

/// The argument as at most one value of the type xs:string, and the empty text where there is none.
#[tactic(auto, unfolding(crate::specs::FunctionArguments::Arguments::text_or_empty_argument))]
pub fn text_or_empty(alloc: Global, items: &ItemList) -> Result<Text, ValueFault>
    ensures { Answers (text_or_empty_argument items.now) result }
{
    match optional_text(alloc, items)? {
        Some(text) => Ok(text),
        None => Ok(Text::make(alloc, "")?),
    }
}

// The values of single items.
ghost use Rattle.xt_atoms.specs.Casts.{Answers};
ghost use Rattle.xdm_items.specs.FunctionArguments.Arguments.{text_of_item, integer_of_item, name_of_item, atom_of_item, node_of_item};

use crate::Item;
use crate::xt_tree::Node;
use xt_atoms::{Atom, ValueFault};
use xt_names::{Code, DynamicCode, Name, Text};

pub(crate) const WRONG_TYPE: ValueFault = ValueFault::Error(Code::Dynamic(DynamicCode::XPTY0004));

pub(crate) fn text_of_item(item: &Item) -> Result<Text, ValueFault>
    ensures { Answers (text_of_item item.now) result }
{
    match item {
        Item::Atom(Atom::Str(text)) => Ok(text.copy()?),
        _ => Err(WRONG_TYPE),
    }
}

pub(crate) fn integer_of_item(item: &Item) -> Result<i64, ValueFault>
    ensures { Answers (integer_of_item item.now) result }
{
    match item {
        Item::Atom(Atom::Int(number)) => Ok(*number),
        _ => Err(WRONG_TYPE),
    }
}

pub(crate) fn name_of_item(item: &Item) -> Result<Name, ValueFault>
    ensures { Answers (name_of_item item.now) result }
{
    match item {
        Item::Atom(Atom::QName(name)) => Ok(name.get().copy()?),
        _ => Err(WRONG_TYPE),
    }
}

pub(crate) fn atom_of_item(item: &Item) -> Result<Atom, ValueFault>
    ensures { Answers (atom_of_item item.now) result }
{
    match item {
        Item::Atom(atom) => Ok(atom.copy()?),
        Item::Node(_) => Err(WRONG_TYPE),
    }
}

pub(crate) fn node_of_item(item: &Item) -> Result<Node, ValueFault>
    ensures { Answers (node_of_item item.now) result }
{
    match item {
        Item::Node(node) => Ok(node.copy()?),
        Item::Atom(_) => Err(WRONG_TYPE),
    }
}

// The conversion of a value to the type that is expected of it.
ghost use Rattle.std.specs.Prelude.{◌≡◌, Ok};
ghost use Rattle.xt_atoms.specs.Casts.{Answers};
ghost use Rattle.xdm_items.specs.Conversion.{converted, converted_items, converted_item, converted_atom, is_cast_to, matched, prepared, Pushes};
ghost use Rattle.xdm_items.specs.Values.{atomized, atomized_item};

use crate::items::Item;
use crate::lists::ItemList;
use crate::matching::matches;
use crate::values::atom_of;
use std::alloc::Global;
use xt_atoms::{Atom, ValueFault, cast};
use xt_names::{AtomType, Code, DynamicCode};
use xt_types::{ItemType, SeqType};

const WRONG_TYPE: Code = Code::Dynamic(DynamicCode::XPTY0004);

/// The items as values of the type (the function conversion rules, XPath 2.0, 3.1.5). For an atomic type they are atomized,
/// and the untyped atoms among them cast in turn, but not to xs:QName or xs:anyAtomicType; the first cast that fails is
/// FORG0001. XPTY0004 comes where they do not match the type then. The items are spent on a refusal.
pub fn convert(alloc: Global, items: ItemList, to: &SeqType) -> Result<ItemList, ValueFault>
    ensures { Answers (converted to.now items) result }
{
    if matches(&items, to) {
        return Ok(items);
    }
    match prepared(alloc, items, to) {
        Ok(made) => matched(made, to),
        Err(fault) => Err(fault),
    }
}

#[tactic(auto, unfolding(crate::specs::Conversion::prepared))]
fn prepared(alloc: Global, items: ItemList, to: &SeqType) -> Result<ItemList, ValueFault>
    ensures { Answers (prepared to.now items) result }
{
    match to {
        SeqType::Of(ItemType::Atomic(kind), _) => converted_items(alloc, items.as_slice(), *kind),
        _ => Ok(items),
    }
}

#[tactic(auto, unfolding(crate::specs::Conversion::matched))]
fn matched(items: ItemList, to: &SeqType) -> Result<ItemList, ValueFault>
    ensures { Answers (matched to.now (Ok items)) result }
{
    if matches(&items, to) {
        Ok(items)
    } else {
        Err(ValueFault::Error(WRONG_TYPE))
    }
}

fn converted_items(alloc: Global, items: &[Item], to: AtomType) -> Result<ItemList, ValueFault>
    ensures { Answers (converted_items to (atomized items.now)) result }
{
    let mut made = ItemList::new(alloc);
    for item in items {
        match push_converted(alloc, item, to, &mut made) {
            Ok(()) => {}
            Err(fault) => return Err(fault),
        }
    }
    Ok(made)
}

fn push_converted(
    alloc: Global,
    item: &Item,
    to: AtomType,
    made: &mut ItemList,
) -> Result<(), ValueFault>
    ensures { Pushes (converted_item to (atomized_item item.now)) made.old made.new result }
{
    let atom = atom_of(alloc, item)?;
    match converted_atom(alloc, atom, to) {
        Ok(converted) => {
            made.push(Item::Atom(converted))?;
            Ok(())
        }
        Err(fault) => Err(fault),
    }
}

#[tactic(auto, unfolding(crate::specs::Conversion::converted_atom))]
fn converted_atom(alloc: Global, atom: Atom, to: AtomType) -> Result<Atom, ValueFault>
    ensures { Answers (converted_atom to atom) result }
{
    match &atom {
        Atom::Untyped(_) if is_cast_to(to) => cast(alloc, &atom, to),
        _ => Ok(atom),
    }
}

fn is_cast_to(to: AtomType) -> bool
    ensures { result ≡ is_cast_to to }
{
    !matches!(to, AtomType::QName | AtomType::Any)
}

// Arguments that are lists.
ghost use Rattle.std.specs.Prelude.{◌≡◌, true, Ok};
ghost use Rattle.xt_names.specs.declared.kinds.AtomType.TheVariants.{Any};
ghost use Rattle.xt_types.specs.declared.types.Count.TheVariants.{Many};
ghost use Rattle.xt_atoms.specs.Casts.{Answers};
ghost use Rattle.xdm_items.specs.Conversion.{converted};
ghost use Rattle.xdm_items.specs.Matching.{matches_type};
ghost use Rattle.xdm_items.specs.FunctionArguments.Arguments.{atomic, text_arguments, integer_arguments, atom_arguments};

use crate::{ItemList, convert, copy_item_list, matches};
use std::alloc::Global;
use xt_atoms::ValueFault;
use xt_names::AtomType;
use xt_types::{Count, ItemType, SeqType};

/// The argument as any number of values of the type xs:string; each item is an atom of this type.
#[tactic(auto, unfolding(crate::specs::FunctionArguments::Arguments::text_arguments))]
pub fn texts(alloc: Global, items: &ItemList) -> Result<ItemList, ValueFault>
    ensures { Answers (text_arguments items.now) result }
{
    atomic(alloc, items, AtomType::Str, Count::Many)
}

/// The argument as any number of values of the type xs:integer; each item is an atom of this type.
#[tactic(auto, unfolding(crate::specs::FunctionArguments::Arguments::integer_arguments))]
pub fn integers(alloc: Global, items: &ItemList) -> Result<ItemList, ValueFault>
    ensures { Answers (integer_arguments items.now) result }
{
    atomic(alloc, items, AtomType::Int, Count::Many)
}

/// The argument as any number of atomic values; each item is an atom.
#[tactic(auto, unfolding(crate::specs::FunctionArguments::Arguments::atom_arguments))]
pub fn atoms(alloc: Global, items: &ItemList) -> Result<ItemList, ValueFault>
    ensures { Answers (atom_arguments items.now) result }
{
    atomic(alloc, items, AtomType::Any, Count::Many)
}

/// Whether the argument is any number of atomic values as it stands, so that its conversion to
/// them changes nothing (XPath 2.0, 3.1.5).
pub fn are_atoms(items: &ItemList) -> bool
    ensures exactly { result ≡ matches_type (atomic Any Many) items.now }
    ensures stay { result ≡ true → atom_arguments items.now ≡ Ok items.now }
{
    is_atomic(items, AtomType::Any, Count::Many)
}

/// Whether the argument is so many atoms of the type as it stands, so that its conversion changes
/// nothing.
pub(crate) fn is_atomic(items: &ItemList, kind: AtomType, count: Count) -> bool
    ensures exactly { result ≡ matches_type (atomic kind count) items.now }
    ensures stay { result ≡ true → converted (atomic kind count) items.now ≡ Ok items.now }
{
    matches(items, &SeqType::Of(ItemType::Atomic(kind), count))
}

/// The argument as so many atoms of the type.
pub(crate) fn atomic(
    alloc: Global,
    items: &ItemList,
    kind: AtomType,
    count: Count,
) -> Result<ItemList, ValueFault>
    ensures { Answers (converted (atomic kind count) items.now) result }
{
    converted(alloc, items, &SeqType::Of(ItemType::Atomic(kind), count))
}

/// The argument as a value of the type.
pub(crate) fn converted(
    alloc: Global,
    items: &ItemList,
    to: &SeqType,
) -> Result<ItemList, ValueFault>
    ensures { Answers (converted to.now items.now) result }
{
    let own = copy_item_list(items)?;
    convert(alloc, own, to)
}

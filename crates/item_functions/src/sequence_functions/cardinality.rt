// How many items a sequence has.
ghost use Rattle.std.specs.Prelude.{◌≡◌};
ghost use Rattle.xt_atoms.specs.Casts.{Answers};
ghost use Rattle.item_functions.specs.SequenceFunctions.Cardinality.{counted, has_item, has_no_item, zero_or_one, one_or_more, exactly_one};

use crate::sequence_functions::copies::copied;
use std::alloc::Global;
use xdm_items::{Item, ItemList};
use xt_atoms::ValueFault;
use xt_names::{Code, DynamicCode};

/// A number past the greatest integer.
pub(crate) const OUT_OF_RANGE: Code = Code::Dynamic(DynamicCode::FOAR0002);

const MORE_THAN_ONE: ValueFault = ValueFault::Error(Code::Dynamic(DynamicCode::FORG0003));

const NO_ITEM: ValueFault = ValueFault::Error(Code::Dynamic(DynamicCode::FORG0004));

const NOT_ONE: ValueFault = ValueFault::Error(Code::Dynamic(DynamicCode::FORG0005));

/// The number of items (`fn:count`, Functions and Operators, 15.4.1); FOAR0002 where it is past
/// the greatest integer.
#[tactic(auto, unfolding(crate::specs::SequenceFunctions::Cardinality::counted))]
pub fn count(items: &[Item]) -> Result<i64, Code>
    ensures { result ≡ counted items.now }
{
    let count = items.len() as u64;
    if count <= 0x7FFF_FFFF_FFFF_FFFF {
        Ok(count as i64)
    } else {
        Err(OUT_OF_RANGE)
    }
}

/// Whether there is no item (`fn:empty`, Functions and Operators, 15.1.4).
#[tactic(auto, unfolding(crate::specs::SequenceFunctions::Cardinality::has_no_item))]
pub fn has_no_item(items: &[Item]) -> bool
    ensures { result ≡ has_no_item items.now }
{
    items.is_empty()
}

/// Whether there is an item (`fn:exists`, Functions and Operators, 15.1.5).
#[tactic(auto, unfolding(crate::specs::SequenceFunctions::Cardinality::has_item))]
pub fn has_item(items: &[Item]) -> bool
    ensures { result ≡ has_item items.now }
{
    !items.is_empty()
}

/// The items where there is at most one (`fn:zero-or-one`, Functions and Operators, 15.2.1), and
/// else FORG0003.
#[tactic(auto, unfolding(crate::specs::SequenceFunctions::Cardinality::zero_or_one))]
pub fn zero_or_one(alloc: Global, items: &[Item]) -> Result<ItemList, ValueFault>
    ensures { Answers (zero_or_one items.now) result }
{
    if items.len() <= 1 {
        Ok(copied(alloc, items)?)
    } else {
        Err(MORE_THAN_ONE)
    }
}

/// The items where there is at least one (`fn:one-or-more`, Functions and Operators, 15.2.2), and
/// else FORG0004.
#[tactic(auto, unfolding(crate::specs::SequenceFunctions::Cardinality::one_or_more))]
pub fn one_or_more(alloc: Global, items: &[Item]) -> Result<ItemList, ValueFault>
    ensures { Answers (one_or_more items.now) result }
{
    if items.len() > 0 {
        Ok(copied(alloc, items)?)
    } else {
        Err(NO_ITEM)
    }
}

/// The items where there is exactly one (`fn:exactly-one`, Functions and Operators, 15.2.3), and
/// else FORG0005.
#[tactic(auto, unfolding(crate::specs::SequenceFunctions::Cardinality::exactly_one))]
pub fn exactly_one(alloc: Global, items: &[Item]) -> Result<ItemList, ValueFault>
    ensures { Answers (exactly_one items.now) result }
{
    if items.len() == 1 {
        Ok(copied(alloc, items)?)
    } else {
        Err(NOT_ONE)
    }
}

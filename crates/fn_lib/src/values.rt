// The functions that no crate below has.
ghost use Rattle.std.specs.Prelude.{Ok, reverse};
ghost use Rattle.xt_atoms.specs.Casts.{Answers};
ghost use Rattle.xdm_items.specs.Values.{atomized};
ghost use Rattle.xdm_items.specs.FunctionArguments.Answers.{of_truth};
ghost use Rattle.item_functions.specs.SequenceFunctions.Cardinality.{exactly_one, one_or_more, zero_or_one};
ghost use Rattle.fn_lib.specs.Values.{error_value};

use item_functions::sequence_functions as sequences;
use std::alloc::Global;
use xdm_items::function_arguments::truth_list;
use xdm_items::{ItemList, atomize, copy_item_list};
use xt_atoms::ValueFault;
use xt_names::{Code, DynamicCode};

/// The typed values of the items (`fn:data`, Functions and Operators, 2.4).
pub(crate) fn data(alloc: Global, items: &ItemList) -> Result<ItemList, ValueFault>
    ensures { Answers (Ok (atomized items.now)) result }
{
    Ok(atomize(alloc, items)?)
}

/// The error FOER0000 (`fn:error`, Functions and Operators, 3).
pub(crate) fn error() -> Result<ItemList, ValueFault>
    ensures { Answers error_value result }
{
    Err(ValueFault::Error(Code::Dynamic(DynamicCode::FOER0000)))
}

/// The truth value (`fn:true` and `fn:false`, Functions and Operators, 9.1).
pub(crate) fn truth(alloc: Global, truth: bool) -> Result<ItemList, ValueFault>
    ensures { Answers (Ok (of_truth truth)) result }
{
    Ok(truth_list(alloc, truth)?)
}

/// The same items (`fn:unordered`, `fn:position` and `fn:last`, Functions and Operators, 15.1.11,
/// 16.1 and 16.2).
pub(crate) fn same(items: &ItemList) -> Result<ItemList, ValueFault>
    ensures { Answers (Ok items.now) result }
{
    Ok(copy_item_list(items)?)
}

/// The items from the last to the first (`fn:reverse`, Functions and Operators, 15.1.9).
pub(crate) fn reverse(alloc: Global, items: &ItemList) -> Result<ItemList, ValueFault>
    ensures { Answers (Ok (reverse items.now)) result }
{
    Ok(sequences::reverse(alloc, items.as_slice())?)
}

/// The items where there is at most one (`fn:zero-or-one`, Functions and Operators, 15.2.1).
pub(crate) fn zero_or_one(alloc: Global, items: &ItemList) -> Result<ItemList, ValueFault>
    ensures { Answers (zero_or_one items.now) result }
{
    sequences::zero_or_one(alloc, items.as_slice())
}

/// The items where there is at least one (`fn:one-or-more`, Functions and Operators, 15.2.2).
pub(crate) fn one_or_more(alloc: Global, items: &ItemList) -> Result<ItemList, ValueFault>
    ensures { Answers (one_or_more items.now) result }
{
    sequences::one_or_more(alloc, items.as_slice())
}

/// The items where there is exactly one (`fn:exactly-one`, Functions and Operators, 15.2.3).
pub(crate) fn exactly_one(alloc: Global, items: &ItemList) -> Result<ItemList, ValueFault>
    ensures { Answers (exactly_one items.now) result }
{
    sequences::exactly_one(alloc, items.as_slice())
}

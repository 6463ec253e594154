// The functions that take one argument more or less.
ghost use Rattle.xt_atoms.specs.Casts.{Answers};
ghost use Rattle.fn_lib.specs.Values.{subsequence_value, substring_value, sum_value};

use item_functions as items;
use std::alloc::Global;
use text_functions as texts;
use xdm_items::ItemList;
use xt_atoms::ValueFault;

/// `fn:subsequence` of two arguments, or of three.
pub(crate) fn subsequence(
    alloc: Global,
    count: usize,
    whole: &ItemList,
    start: &ItemList,
    length: &ItemList,
) -> Result<ItemList, ValueFault>
    ensures { Answers (subsequence_value count whole.now start.now length.now) result }
{
    if count < 3 {
        return items::subsequence(alloc, whole, start);
    }
    items::subsequence_for(alloc, whole, start, length)
}

/// `fn:substring` of two arguments, or of three.
pub(crate) fn substring(
    alloc: Global,
    count: usize,
    whole: &ItemList,
    start: &ItemList,
    length: &ItemList,
) -> Result<ItemList, ValueFault>
    ensures { Answers (substring_value count whole.now start.now length.now) result }
{
    if count < 3 {
        return texts::substring(alloc, whole, start);
    }
    texts::substring_for(alloc, whole, start, length)
}

/// `fn:sum` of one argument, or of two.
pub(crate) fn sum(
    alloc: Global,
    count: usize,
    whole: &ItemList,
    zero: &ItemList,
) -> Result<ItemList, ValueFault>
    ensures { Answers (sum_value count whole.now zero.now) result }
{
    if count < 2 {
        return items::sum(alloc, whole);
    }
    items::sum_with(alloc, whole, zero)
}

// substring.
ghost use Rattle.std.specs.Prelude.{◌≡◌, ◌+ℤ◌, take, drop, IfOk};
ghost use Rattle.xt_atoms.specs.Casts.{Answers};
ghost use Rattle.text_operations.specs.Positions.{count_before};
ghost use Rattle.text_functions.specs.TextFunctions.{substring_of, substring_for_of};

use std::alloc::{AllocError, Global};
use text_operations::{after_chars, between_chars, count_before, count_before_sum};
use xdm_items::ItemList;
use xdm_items::function_arguments::{integer, text_list, text_or_empty};
use xt_atoms::ValueFault;
use xt_names::Text;

/// The characters at the positions from the start on, which count from 1 (Functions and Operators, 7.4.3).
#[tactic(auto, unfolding(crate::specs::TextFunctions::substring_of))]
pub fn substring(
    alloc: Global,
    argument: &ItemList,
    start: &ItemList,
) -> Result<ItemList, ValueFault>
    ensures { Answers (substring_of argument.now start.now) result }
{
    let whole = text_or_empty(alloc, argument)?;
    let first = integer(alloc, start)?;
    Ok(text_list(alloc, text_after(alloc, &whole, count_before(first))?)?)
}

fn text_after(alloc: Global, whole: &Text, count: usize) -> Result<Text, AllocError>
    ensures { IfOk result (λ rest. rest ≡ drop count whole.now) }
{
    if count == 0 {
        return whole.copy();
    }
    Text::make(alloc, after_chars(whole.as_str(), count))
}

/// The same, below the sum of the start and the length; the sum has no limit.
#[tactic(auto, unfolding(crate::specs::TextFunctions::substring_for_of))]
pub fn substring_for(
    alloc: Global,
    argument: &ItemList,
    start: &ItemList,
    length: &ItemList,
) -> Result<ItemList, ValueFault>
    ensures { Answers (substring_for_of argument.now start.now length.now) result }
{
    let whole = text_or_empty(alloc, argument)?;
    let first = integer(alloc, start)?;
    let count = integer(alloc, length)?;
    Ok(text_list(alloc, text_between(alloc, &whole, first, count)?)?)
}

fn text_between(alloc: Global, whole: &Text, start: i64, length: i64) -> Result<Text, AllocError>
    ensures { IfOk result (λ part. part ≡ drop (count_before start) (take (count_before (start +ℤ length)) whole.now)) }
{
    let end = count_before_sum(start, length);
    Text::make(
        alloc,
        between_chars(whole.as_str(), count_before(start), end),
    )
}

// contains, starts-with, ends-with, substring-before and substring-after.
ghost use Rattle.std.specs.Prelude.{◌≡◌, nat_eq, [], is_some, unwrap_or, IfOk};
ghost use Rattle.std.specs.List.{starts_with, ends_with};
ghost use Rattle.xt_atoms.specs.Casts.{Answers};
ghost use Rattle.text_operations.specs.Searches.{text_before, text_after};
ghost use Rattle.text_functions.specs.TextFunctions.{contains_of, starts_with_of, ends_with_of, substring_before_of, substring_after_of};

use std::alloc::{AllocError, Global};
use text_operations::split_at_first;
use xdm_items::ItemList;
use xdm_items::function_arguments::{text_list, text_or_empty, truth_list};
use xt_atoms::ValueFault;
use xt_names::Text;

/// Whether the second text occurs in the first; the empty text does (Functions and Operators, 7.5.1).
#[tactic(auto, unfolding(crate::specs::TextFunctions::contains_of))]
pub fn contains(alloc: Global, argument: &ItemList, part: &ItemList) -> Result<ItemList, ValueFault>
    ensures { Answers (contains_of argument.now part.now) result }
{
    let whole = text_or_empty(alloc, argument)?;
    let wanted = text_or_empty(alloc, part)?;
    Ok(truth_list(alloc, is_part(&whole, &wanted))?)
}

fn is_part(whole: &Text, part: &Text) -> bool
    ensures { result ≡ is_some (text_before part.now whole.now) }
{
    split_at_first(whole.as_str(), part.as_str()).is_some()
}

/// Whether the first text begins with the second (Functions and Operators, 7.5.2).
#[tactic(auto, unfolding(crate::specs::TextFunctions::starts_with_of))]
pub fn starts_with(
    alloc: Global,
    argument: &ItemList,
    part: &ItemList,
) -> Result<ItemList, ValueFault>
    ensures { Answers (starts_with_of argument.now part.now) result }
{
    let whole = text_or_empty(alloc, argument)?;
    let wanted = text_or_empty(alloc, part)?;
    Ok(truth_list(alloc, is_start(&whole, &wanted))?)
}

fn is_start(whole: &Text, part: &Text) -> bool
    ensures { result ≡ starts_with nat_eq whole.now part.now }
{
    text_operations::starts_with(whole.as_str(), part.as_str())
}

/// Whether the first text ends with the second (Functions and Operators, 7.5.3).
#[tactic(auto, unfolding(crate::specs::TextFunctions::ends_with_of))]
pub fn ends_with(
    alloc: Global,
    argument: &ItemList,
    part: &ItemList,
) -> Result<ItemList, ValueFault>
    ensures { Answers (ends_with_of argument.now part.now) result }
{
    let whole = text_or_empty(alloc, argument)?;
    let wanted = text_or_empty(alloc, part)?;
    Ok(truth_list(alloc, is_end(&whole, &wanted))?)
}

fn is_end(whole: &Text, part: &Text) -> bool
    ensures { result ≡ ends_with nat_eq whole.now part.now }
{
    text_operations::ends_with(whole.as_str(), part.as_str())
}

/// What comes before the first occurrence of the second text in the first, and the empty text where
/// it does not occur
/// (Functions and Operators, 7.5.4).
#[tactic(auto, unfolding(crate::specs::TextFunctions::substring_before_of))]
pub fn substring_before(
    alloc: Global,
    argument: &ItemList,
    part: &ItemList,
) -> Result<ItemList, ValueFault>
    ensures { Answers (substring_before_of argument.now part.now) result }
{
    let whole = text_or_empty(alloc, argument)?;
    let wanted = text_or_empty(alloc, part)?;
    Ok(text_list(alloc, before(alloc, &whole, &wanted)?)?)
}

#[tactic(auto, using(crate::proofs::TextLemmas::no_chars))]
fn before(alloc: Global, whole: &Text, part: &Text) -> Result<Text, AllocError>
    ensures { IfOk result (λ front. front ≡ unwrap_or (text_before part.now whole.now) []) }
{
    match split_at_first(whole.as_str(), part.as_str()) {
        Some((front, _)) => Text::make(alloc, front),
        None => Text::make(alloc, ""),
    }
}

/// What comes after the first occurrence of the second text in the first, and the empty text where
/// it does not occur
/// (Functions and Operators, 7.5.5).
#[tactic(auto, unfolding(crate::specs::TextFunctions::substring_after_of))]
pub fn substring_after(
    alloc: Global,
    argument: &ItemList,
    part: &ItemList,
) -> Result<ItemList, ValueFault>
    ensures { Answers (substring_after_of argument.now part.now) result }
{
    let whole = text_or_empty(alloc, argument)?;
    let wanted = text_or_empty(alloc, part)?;
    Ok(text_list(alloc, after(alloc, &whole, &wanted)?)?)
}

#[tactic(auto, using(crate::proofs::TextLemmas::no_chars))]
fn after(alloc: Global, whole: &Text, part: &Text) -> Result<Text, AllocError>
    ensures { IfOk result (λ rest. rest ≡ unwrap_or (text_after part.now whole.now) []) }
{
    match split_at_first(whole.as_str(), part.as_str()) {
        Some((_, rest)) => Text::make(alloc, rest),
        None => Text::make(alloc, ""),
    }
}

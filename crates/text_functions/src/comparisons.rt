// compare and codepoint-equal.
ghost use Rattle.std.specs.Prelude.{◌≡◌};
ghost use Rattle.std.specs.Str.{bytes_eq};
ghost use Rattle.xt_atoms.specs.Casts.{Answers};
ghost use Rattle.xt_atoms.specs.Comparisons.{text_order};
ghost use Rattle.text_functions.specs.TextFunctions.{compare_of, codepoint_equal_of, order_number};

use std::alloc::Global;
use std::cmp::Ordering;
use xdm_items::ItemList;
use xdm_items::function_arguments::{integer_list, no_items, optional_text, truth_list};
use xt_atoms::{ValueFault, text_order};
use xt_names::Text;

/// How the texts stand by their code points: -1, 0 or 1, and nothing where one is the empty list (Functions and Operators,
/// 7.3.2).
#[tactic(auto, unfolding(crate::specs::TextFunctions::compare_of))]
pub fn compare(alloc: Global, first: &ItemList, second: &ItemList) -> Result<ItemList, ValueFault>
    ensures { Answers (compare_of first.now second.now) result }
{
    let left = optional_text(alloc, first)?;
    let right = optional_text(alloc, second)?;
    match (left, right) {
        (Some(a), Some(b)) => Ok(integer_list(alloc, order_of(&a, &b))?),
        _ => Ok(no_items(alloc)),
    }
}

fn order_of(a: &Text, b: &Text) -> i64
    ensures { result ≡ order_number (text_order a.now b.now) }
{
    match text_order(a.as_str(), b.as_str()) {
        Ordering::Less => -1,
        Ordering::Equal => 0,
        Ordering::Greater => 1,
    }
}

/// Whether the texts have the same code points, and nothing where one is the empty list (Functions and Operators, 7.3.3).
#[tactic(auto, unfolding(crate::specs::TextFunctions::codepoint_equal_of))]
pub fn codepoint_equal(
    alloc: Global,
    first: &ItemList,
    second: &ItemList,
) -> Result<ItemList, ValueFault>
    ensures { Answers (codepoint_equal_of first.now second.now) result }
{
    let left = optional_text(alloc, first)?;
    let right = optional_text(alloc, second)?;
    match (left, right) {
        (Some(a), Some(b)) => Ok(truth_list(alloc, a == b)?),
        _ => Ok(no_items(alloc)),
    }
}

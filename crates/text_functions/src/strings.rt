// string, string-length, normalize-space and translate.
ghost use Rattle.std.specs.Prelude.{◌≡◌, pos, length, IfOk};
ghost use Rattle.xt_atoms.specs.Casts.{Answers};
ghost use Rattle.xdm_items.specs.Values.{string_value_of};
ghost use Rattle.text_operations.specs.Translations.{translated};
ghost use Rattle.text_functions.specs.TextFunctions.{string_of, string_length_of, normalize_space_of, translate_of};

use std::alloc::{AllocError, Global};
use text_operations::{char_count, normalized, translated};
use xdm_items::function_arguments::{integer_list, text, text_list, text_or_empty};
use xdm_items::{Item, ItemList};
use xt_atoms::{ValueFault, to_text};
use xt_names::{Code, DynamicCode, Text};

const WRONG_TYPE: ValueFault = ValueFault::Error(Code::Dynamic(DynamicCode::XPTY0004));

/// The string value of the item, and the empty text of none; XPTY0004 where there are more (Functions and Operators, 2.3).
#[tactic(auto, using(crate::proofs::TextLemmas::no_chars), unfolding(crate::specs::TextFunctions::string_of))]
pub fn string(alloc: Global, argument: &ItemList) -> Result<ItemList, ValueFault>
    ensures { Answers (string_of argument.now) result }
{
    match argument.as_slice() {
        [] => Ok(text_list(alloc, Text::make(alloc, "")?)?),
        [item] => Ok(text_list(alloc, string_value(alloc, item)?)?),
        _ => Err(WRONG_TYPE),
    }
}

/// The string value of an item.
pub(crate) fn string_value(alloc: Global, item: &Item) -> Result<Text, AllocError>
    ensures { IfOk result (λ value. value ≡ string_value_of item.now) }
{
    match item {
        Item::Node(node) => node.string_value(alloc),
        Item::Atom(atom) => to_text(alloc, atom),
    }
}

/// How many characters the text has (Functions and Operators, 7.4.4).
#[tactic(auto, unfolding(crate::specs::TextFunctions::string_length_of))]
pub fn string_length(alloc: Global, argument: &ItemList) -> Result<ItemList, ValueFault>
    ensures { Answers (string_length_of argument.now) result }
{
    let whole = text_or_empty(alloc, argument)?;
    Ok(integer_list(alloc, length_of(&whole))?)
}

fn length_of(text: &Text) -> i64
    ensures { result ≡ pos (length text.now) }
{
    char_count(text.as_str())
}

/// The text without white space at its ends and with each run of white space as one space (Functions and Operators, 7.4.5).
#[tactic(auto, unfolding(crate::specs::TextFunctions::normalize_space_of))]
pub fn normalize_space(alloc: Global, argument: &ItemList) -> Result<ItemList, ValueFault>
    ensures { Answers (normalize_space_of argument.now) result }
{
    let whole = text_or_empty(alloc, argument)?;
    Ok(text_list(alloc, normalized(alloc, &whole)?)?)
}

/// The first text with each character of the second replaced by the one at the same place of the third, or dropped where
/// there is none (Functions and Operators, 7.4.9).
#[tactic(auto, unfolding(crate::specs::TextFunctions::translate_of))]
pub fn translate(
    alloc: Global,
    argument: &ItemList,
    from: &ItemList,
    to: &ItemList,
) -> Result<ItemList, ValueFault>
    ensures { Answers (translate_of argument.now from.now to.now) result }
{
    let whole = text_or_empty(alloc, argument)?;
    let old = text(alloc, from)?;
    let new = text(alloc, to)?;
    Ok(text_list(alloc, replaced(alloc, &whole, &old, &new)?)?)
}

fn replaced(alloc: Global, whole: &Text, old: &Text, new: &Text) -> Result<Text, AllocError>
    ensures { IfOk result (λ made. made ≡ translated old.now new.now whole.now) }
{
    if old.is_empty() {
        return whole.copy();
    }
    translated(alloc, whole, old.as_str(), new.as_str())
}

// concat and string-join.
ghost use Rattle.std.specs.Prelude.{◌≡◌, ◌++◌, OnOk, IfOk};
ghost use Rattle.xt_atoms.specs.Casts.{Answers};
ghost use Rattle.text_functions.specs.Joins.{in_turn, joined, argument_text, added, Puts};
ghost use Rattle.text_functions.specs.TextFunctions.{concat_of, string_join_of};

use crate::strings::string_value;
use std::alloc::{AllocError, Global};
use xdm_items::function_arguments::{optional_atom, text, text_list, texts};
use xdm_items::{Item, ItemList};
use xt_atoms::{ValueFault, to_text};
use xt_names::{Text, TextBuilder};

/// The texts of the arguments one after another; each is an atom, or the empty list for the empty text (Functions and
/// Operators, 7.4.1).
#[tactic(auto, unfolding(crate::specs::TextFunctions::concat_of))]
pub fn concat(alloc: Global, arguments: &[ItemList]) -> Result<ItemList, ValueFault>
    ensures { Answers (concat_of arguments.now) result }
{
    let whole = concatenated(alloc, arguments)?;
    Ok(text_list(alloc, whole)?)
}

fn concatenated(alloc: Global, arguments: &[ItemList]) -> Result<Text, ValueFault>
    ensures { Answers (in_turn argument_text arguments.now) result }
{
    let mut made = TextBuilder::new(alloc);
    for argument in arguments {
        match put_argument(alloc, &mut made, argument) {
            Ok(()) => {}
            Err(fault) => return Err(fault),
        }
    }
    Ok(made.finish()?)
}

fn put_argument(
    alloc: Global,
    made: &mut TextBuilder,
    argument: &ItemList,
) -> Result<(), ValueFault>
    ensures { Puts (argument_text argument.now) made.old made.new result }
{
    match argument_text(alloc, argument) {
        Ok(value) => {
            made.push_text(&value)?;
            Ok(())
        }
        Err(fault) => Err(fault),
    }
}

#[tactic(auto, using(crate::proofs::TextLemmas::no_chars))]
fn argument_text(alloc: Global, argument: &ItemList) -> Result<Text, ValueFault>
    ensures { Answers (argument_text argument.now) result }
{
    match optional_atom(alloc, argument)? {
        Some(atom) => Ok(to_text(alloc, &atom)?),
        None => Ok(Text::make(alloc, "")?),
    }
}

/// The texts one after another, with the separator between them (Functions and Operators, 7.4.2).
#[tactic(auto, unfolding(crate::specs::TextFunctions::string_join_of))]
pub fn string_join(
    alloc: Global,
    argument: &ItemList,
    separator: &ItemList,
) -> Result<ItemList, ValueFault>
    ensures { Answers (string_join_of argument.now separator.now) result }
{
    let items = texts(alloc, argument)?;
    let between = text(alloc, separator)?;
    Ok(text_list(alloc, joined(alloc, items.as_slice(), &between)?)?)
}

fn joined(alloc: Global, items: &[Item], separator: &Text) -> Result<Text, AllocError>
    ensures { IfOk result (λ whole. whole ≡ joined separator.now items.now) }
{
    let mut made = TextBuilder::new(alloc);
    for (i, item) in items.iter().enumerate() {
        put_next(alloc, &mut made, separator, i, item)?;
    }
    made.finish()
}

fn put_next(
    alloc: Global,
    made: &mut TextBuilder,
    separator: &Text,
    place: usize,
    item: &Item,
) -> Result<(), AllocError>
    ensures { OnOk result (made.new ≡ made.old ++ added separator.now place item.now) }
{
    let value = string_value(alloc, item)?;
    if place == 0 {
        return made.push_text(&value);
    }
    made.push_text(separator)?;
    made.push_text(&value)
}

// codepoints-to-string and string-to-codepoints.
ghost use Rattle.std.specs.Prelude.{◌≡◌, pos, map, IfOk};
ghost use Rattle.xt_atoms.specs.Casts.{Answers};
ghost use Rattle.text_functions.specs.Joins.{in_turn, Puts};
ghost use Rattle.text_functions.specs.TextFunctions.{codepoints_to_string_of, string_to_codepoints_of, character_of, one_character, xml_character, as_integer};

use std::alloc::{AllocError, Global};
use xdm_items::function_arguments::{integers, text_list, text_or_empty};
use xdm_items::{Item, ItemList};
use xt_atoms::{Atom, ValueFault};
use xt_names::{Code, DynamicCode, Text, TextBuilder, is_xml_char};

const NO_CHARACTER: Code = Code::Dynamic(DynamicCode::FOCH0001);

const WRONG_TYPE: Code = Code::Dynamic(DynamicCode::XPTY0004);

/// The text of the characters with these code points; FOCH0001 where one is no character of XML (Functions and Operators,
/// 7.2.1).
#[tactic(auto, unfolding(crate::specs::TextFunctions::codepoints_to_string_of))]
pub fn codepoints_to_string(alloc: Global, argument: &ItemList) -> Result<ItemList, ValueFault>
    ensures { Answers (codepoints_to_string_of argument.now) result }
{
    let numbers = integers(alloc, argument)?;
    let whole = characters(alloc, numbers.as_slice())?;
    Ok(text_list(alloc, whole)?)
}

fn characters(alloc: Global, numbers: &[Item]) -> Result<Text, ValueFault>
    ensures { Answers (in_turn one_character numbers.now) result }
{
    let mut made = TextBuilder::new(alloc);
    for number in numbers {
        match put_character(&mut made, number) {
            Ok(()) => {}
            Err(fault) => return Err(fault),
        }
    }
    Ok(made.finish()?)
}

fn put_character(made: &mut TextBuilder, number: &Item) -> Result<(), ValueFault>
    ensures { Puts (one_character number.now) made.old made.new result }
{
    match character(number) {
        Ok(c) => {
            made.push(c)?;
            Ok(())
        }
        Err(code) => Err(ValueFault::Error(code)),
    }
}

fn character(number: &Item) -> Result<char, Code>
    ensures { result ≡ character_of number.now }
{
    match number {
        Item::Atom(Atom::Int(code)) => xml_character(*code),
        _ => Err(WRONG_TYPE),
    }
}

/// The character of XML with this code point.
fn xml_character(code: i64) -> Result<char, Code>
    ensures { result ≡ xml_character code }
{
    if code < 0 {
        return Err(NO_CHARACTER);
    }
    if code > 0x10_FFFF {
        return Err(NO_CHARACTER);
    }
    character_at(code.unsigned_abs() as u32)
}

fn character_at(code: u32) -> Result<char, Code>
    ensures { result ≡ xml_character (pos code) }
{
    match char::from_u32(code) {
        Some(c) => checked(c),
        None => Err(NO_CHARACTER),
    }
}

fn checked(c: char) -> Result<char, Code>
    ensures { result ≡ xml_character (pos c) }
{
    if is_xml_char(c) {
        Ok(c)
    } else {
        Err(NO_CHARACTER)
    }
}

/// The code points of the characters (Functions and Operators, 7.2.2).
#[tactic(auto, unfolding(crate::specs::TextFunctions::string_to_codepoints_of))]
pub fn string_to_codepoints(alloc: Global, argument: &ItemList) -> Result<ItemList, ValueFault>
    ensures { Answers (string_to_codepoints_of argument.now) result }
{
    let whole = text_or_empty(alloc, argument)?;
    Ok(codepoints(alloc, &whole)?)
}

fn codepoints(alloc: Global, whole: &Text) -> Result<ItemList, AllocError>
    ensures { IfOk result (λ numbers. numbers ≡ map as_integer whole.now) }
{
    let mut numbers = ItemList::new(alloc);
    for c in whole.as_str().chars() {
        numbers.push(Item::Atom(Atom::Int(i64::from(u32::from(c)))))?;
    }
    Ok(numbers)
}

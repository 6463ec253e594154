// Casts.
ghost use Rattle.std.specs.Prelude.{◌≡◌, is_ok};
ghost use Rattle.std.specs.Str.{chars};
ghost use Rattle.xt_atoms.specs.Casts.{Answers, cast_of, integer_from, boolean_from, spelled_value, is_zero};
ghost use Rattle.xt_atoms.specs.Lexical.{integer_of, boolean_of};

use crate::atom_texts::to_text;
use crate::atoms::Atom;
use crate::faults::ValueFault;
use crate::lexical::{boolean_of, integer_of};
use std::alloc::Global;
use xt_names::{AtomType, Code, DynamicCode, Text};

/// The text spells no value of the type.
pub(crate) const NO_VALUE: Code = Code::Dynamic(DynamicCode::FORG0001);

/// There is no such cast, comparison or operation between the types.
pub(crate) const WRONG_TYPE: Code = Code::Dynamic(DynamicCode::XPTY0004);

/// The atom as a value of the type (XPath and XQuery Functions and Operators, 17). FORG0001 comes where a text spells no
/// value of the type, an integer out of range included, and XPTY0004 where there is no cast: none leads to xs:QName or
/// xs:anyAtomicType.
#[tactic(auto, unfolding(crate::specs::Casts::cast_of))]
pub fn cast(alloc: Global, a: &Atom, to: AtomType) -> Result<Atom, ValueFault>
    ensures { Answers (cast_of a.now to) result }
{
    match to {
        AtomType::Str => Ok(Atom::Str(to_text(alloc, a)?)),
        AtomType::Untyped => Ok(Atom::Untyped(to_text(alloc, a)?)),
        AtomType::Int => match integer_from(a) {
            Ok(number) => Ok(Atom::Int(number)),
            Err(code) => Err(ValueFault::Error(code)),
        },
        AtomType::Bool => match boolean_from(a) {
            Ok(truth) => Ok(Atom::Bool(truth)),
            Err(code) => Err(ValueFault::Error(code)),
        },
        AtomType::QName | AtomType::Any => Err(ValueFault::Error(WRONG_TYPE)),
    }
}

/// Whether the cast gives a value.
#[tactic(auto, unfolding(crate::specs::Casts::cast_of))]
pub fn castable(a: &Atom, to: AtomType) -> bool
    ensures { result ≡ is_ok (cast_of a.now to) }
{
    match to {
        AtomType::Str | AtomType::Untyped => true,
        AtomType::Int => integer_from(a).is_ok(),
        AtomType::Bool => boolean_from(a).is_ok(),
        AtomType::QName | AtomType::Any => false,
    }
}

/// The cast to xs:integer.
#[tactic(auto, unfolding(crate::specs::Casts::integer_from))]
pub fn integer_from(a: &Atom) -> Result<i64, Code>
    ensures { result ≡ integer_from a.now }
{
    match a {
        Atom::Str(text) | Atom::Untyped(text) => spelled_integer(text),
        Atom::Int(number) => Ok(*number),
        Atom::Bool(truth) => Ok(if *truth { 1 } else { 0 }),
        Atom::QName(_) => Err(WRONG_TYPE),
    }
}

/// The cast to xs:boolean.
#[tactic(auto, unfolding(crate::specs::Casts::boolean_from))]
pub fn boolean_from(a: &Atom) -> Result<bool, Code>
    ensures { result ≡ boolean_from a.now }
{
    match a {
        Atom::Str(text) | Atom::Untyped(text) => spelled_boolean(text),
        Atom::Int(number) => Ok(!is_zero(*number)),
        Atom::Bool(truth) => Ok(*truth),
        Atom::QName(_) => Err(WRONG_TYPE),
    }
}

/// Whether the integer is 0.
pub fn is_zero(number: i64) -> bool
    ensures { result ≡ is_zero number }
{
    number == 0
}

/// The integer that the text spells, or FORG0001.
pub(crate) fn spelled_integer(text: &Text) -> Result<i64, Code>
    ensures { result ≡ spelled_value (integer_of text.now) }
{
    match integer_of(text.as_str()) {
        Some(number) => Ok(number),
        None => Err(NO_VALUE),
    }
}

/// The truth value that the text spells, or FORG0001.
pub(crate) fn spelled_boolean(text: &Text) -> Result<bool, Code>
    ensures { result ≡ spelled_value (boolean_of text.now) }
{
    match boolean_of(text.as_str()) {
        Some(truth) => Ok(truth),
        None => Err(NO_VALUE),
    }
}

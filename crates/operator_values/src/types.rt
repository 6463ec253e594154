// Expressions on types.
ghost use Rattle.std.specs.Prelude.{◌≡◌, is_ok};
ghost use Rattle.xt_atoms.specs.Casts.{Answers};
ghost use Rattle.operator_values.specs.Types.{instance_value, treated_value, cast_or_empty};
ghost use Rattle.operator_values.specs.Types.{cast_value, castable_value};

use crate::operands::{WRONG_TYPE, optional_atom};
use std::alloc::Global;
use xdm_items::function_arguments::{atom_list, no_items, truth_list};
use xdm_items::{ItemList, matches};
use xt_atoms::{Atom, ValueFault, cast, castable};
use xt_names::{AtomType, Code, DynamicCode};
use xt_types::SeqType;

/// `a instance of T` (XPath 2.0, 3.10.1).
#[tactic(auto, unfolding(crate::specs::Types::instance_value))]
pub fn instance(alloc: Global, operand: &ItemList, of: &SeqType) -> Result<ItemList, ValueFault>
    ensures { Answers (instance_value of.now operand.now) result }
{
    Ok(truth_list(alloc, matches(operand, of))?)
}

/// `a treat as T`: the same list, or XPDY0050 where it is of another type (XPath 2.0, 3.10.5).
#[tactic(auto, unfolding(crate::specs::Types::treated_value))]
pub fn treated(operand: ItemList, to: &SeqType) -> Result<ItemList, ValueFault>
    ensures { Answers (treated_value to.now operand) result }
{
    if matches(&operand, to) {
        Ok(operand)
    } else {
        drop(operand);
        Err(ValueFault::Error(Code::Dynamic(DynamicCode::XPDY0050)))
    }
}

fn cast_or_empty(
    alloc: Global,
    to: AtomType,
    empty: bool,
    atom: Option<Atom>,
) -> Result<ItemList, ValueFault>
    ensures { Answers (cast_or_empty to empty atom) result }
{
    match atom {
        Some(atom) => {
            let made = cast(alloc, &atom, to)?;
            Ok(atom_list(alloc, made)?)
        }
        None if empty => Ok(no_items(alloc)),
        None => Err(WRONG_TYPE),
    }
}

/// `a cast as T`, or `T?` where `empty` is true. An operand of two items, and of none where it is
/// not allowed, fails with XPTY0004, a text that spells no value of the type with FORG0001
/// (XPath 2.0, 3.10.2).
#[tactic(auto, unfolding(crate::specs::Types::cast_value))]
pub fn cast_list(
    alloc: Global,
    operand: &ItemList,
    to: AtomType,
    empty: bool,
) -> Result<ItemList, ValueFault>
    ensures { Answers (cast_value to empty operand.now) result }
{
    let atom = optional_atom(alloc, operand.as_slice())?;
    cast_or_empty(alloc, to, empty, atom)
}

/// `a castable as T`, or `T?` where `empty` is true: whether the cast gives a value (XPath 2.0,
/// 3.10.3).
#[tactic(auto, unfolding(crate::specs::Types::castable_value, crate::specs::Types::cast_value, crate::specs::Operands::optional_atom))]
pub fn castable_list(
    alloc: Global,
    operand: &ItemList,
    to: AtomType,
    empty: bool,
) -> Result<ItemList, ValueFault>
    ensures { Answers (castable_value to empty operand.now) result }
{
    let is_castable = match operand.as_slice() {
        [] => empty,
        [only] => castable(&crate::operands::atom_of(alloc, only)?, to),
        [_, _, ..] => false,
    };
    Ok(truth_list(alloc, is_castable)?)
}

// Arithmetic and ranges.
ghost use Rattle.std.specs.Prelude.{◌≡◌, pos, Ok};
ghost use Rattle.xt_atoms.specs.Casts.{Answers};
ghost use Rattle.xt_atoms.specs.Arithmetic.{computed};
ghost use Rattle.operator_values.specs.Numbers.{number_of, optional_number, number_list};
ghost use Rattle.operator_values.specs.Numbers.{arithmetic_value, range_value, negated_value};
ghost use Rattle.operator_values.specs.Numbers.{signed_value, AnswersItems};

use crate::operands::optional_atom;
use lazy_seq::Seq;
use std::alloc::Global;
use xdm_items::function_arguments::{integer_list, no_items};
use xdm_items::{Item, ItemList};
use xt_atoms::{Atom, ValueFault, arith, integer_operand};
use xt_names::{ArithOp, Code};

/// At most one integer, or an untyped text that spells one.
#[tactic(auto, unfolding(crate::specs::Numbers::optional_number, crate::specs::Operands::optional_atom, xt_atoms::specs::Arithmetic::integer_operand))]
fn optional_number(alloc: Global, items: &[Item]) -> Result<Option<i64>, ValueFault>
    ensures { Answers (optional_number items.now) result }
{
    match items {
        [Item::Atom(Atom::Int(number))] => Ok(Some(*number)),
        _ => converted_number(alloc, items),
    }
}

/// The same of items that may be no integer yet.
#[tactic(auto, unfolding(crate::specs::Numbers::optional_number))]
fn converted_number(alloc: Global, items: &[Item]) -> Result<Option<i64>, ValueFault>
    ensures { Answers (optional_number items.now) result }
{
    let atom = optional_atom(alloc, items)?;
    match atom {
        None => Ok(None),
        Some(atom) => match integer_operand(&atom) {
            Ok(number) => Ok(Some(number)),
            Err(code) => Err(ValueFault::Error(code)),
        },
    }
}

/// The result of the operator on two integers.
#[tactic(auto, unfolding(xt_atoms::specs::Arithmetic::arithmetic, xt_atoms::specs::Arithmetic::integer_operand))]
fn computed(op: ArithOp, a: i64, b: i64) -> Result<i64, Code>
    ensures { result ≡ computed op a b }
{
    let left = Atom::Int(a);
    let right = Atom::Int(b);
    let number = arith(op, &left, &right);
    drop(left);
    drop(right);
    number
}

fn computed_list(alloc: Global, op: ArithOp, a: i64, b: i64) -> Result<ItemList, ValueFault>
    ensures { Answers (number_list (computed op a b)) result }
{
    match computed(op, a, b) {
        Ok(number) => Ok(integer_list(alloc, number)?),
        Err(code) => Err(ValueFault::Error(code)),
    }
}

/// `+`, `-`, `*`, `idiv` and `mod`; empty where an operand is. FOAR0002 comes past 64 bits and
/// FOAR0001 where the divisor is 0 (XPath 2.0, 3.4).
#[tactic(auto, unfolding(crate::specs::Numbers::arithmetic_value))]
pub fn arithmetic(
    alloc: Global,
    op: ArithOp,
    left: &ItemList,
    right: &ItemList,
) -> Result<ItemList, ValueFault>
    ensures { Answers (arithmetic_value op left.now right.now) result }
{
    let left = optional_number(alloc, left.as_slice())?;
    let right = optional_number(alloc, right.as_slice())?;
    match (left, right) {
        (Some(a), Some(b)) => computed_list(alloc, op, a, b),
        _ => Ok(no_items(alloc)),
    }
}

/// `a to b`: the integers from the first to the second, which are not counted out; empty where an
/// operand is (XPath 2.0, 3.3.1).
#[tactic(auto, unfolding(crate::specs::Numbers::range_value))]
pub fn range(alloc: Global, left: &ItemList, right: &ItemList) -> Result<Seq, ValueFault>
    ensures { AnswersItems (range_value left.now right.now) result }
{
    let left = optional_number(alloc, left.as_slice())?;
    let right = optional_number(alloc, right.as_slice())?;
    match (left, right) {
        (Some(from), Some(to)) => Ok(Seq::of_range(from, to)),
        _ => Ok(Seq::of_list(no_items(alloc))),
    }
}

/// `-a`; empty where the operand is (XPath 2.0, 3.4).
#[tactic(auto, unfolding(crate::specs::Numbers::negated_value))]
pub fn negated(alloc: Global, operand: &ItemList) -> Result<ItemList, ValueFault>
    ensures { Answers (negated_value operand.now) result }
{
    let number = optional_number(alloc, operand.as_slice())?;
    match number {
        Some(number) => computed_list(alloc, ArithOp::Sub, 0, number),
        None => Ok(no_items(alloc)),
    }
}

/// `+a`: the integer of the operand; empty where the operand is (XPath 2.0, 3.4).
#[tactic(auto, unfolding(crate::specs::Numbers::signed_value))]
pub fn signed(alloc: Global, operand: &ItemList) -> Result<ItemList, ValueFault>
    ensures { Answers (signed_value operand.now) result }
{
    let number = optional_number(alloc, operand.as_slice())?;
    match number {
        Some(number) => Ok(integer_list(alloc, number)?),
        None => Ok(no_items(alloc)),
    }
}

// Operators on evaluated operands.
ghost use Rattle.xt_atoms.specs.Casts.{Answers};
ghost use Rattle.expr_meaning.specs.OperatorValues.Numbers.{range_value};
ghost use Rattle.eval_scopes.specs.EvalValues.Operators.{value_of_two, value_of_one};

use expr_meaning::operator_values::{
    after, arithmetic, before, cast_list, castable_list, except, general, intersect, is, negated,
    range, signed, single, union,
};
use std::alloc::Global;
use xdm_items::ItemList;
use xt_atoms::ValueFault;
use xt_names::{ArithOp, AtomType, CompareOp};

/// An operator of two operands (XPath 2.0, 3.3 to 3.5).
#[derive(Clone, Copy)]
pub enum Operator {
    /// `=` and its kin.
    General(CompareOp),
    /// `eq` and its kin.
    Value(CompareOp),
    /// `is`.
    Is,
    /// `<<`.
    Before,
    /// `>>`.
    After,
    /// `to`.
    Range,
    /// `+` and its kin.
    Arith(ArithOp),
    /// `union`.
    Union,
    /// `intersect`.
    Intersect,
    /// `except`.
    Except,
}

/// An operator of one operand (XPath 2.0, 3.4 and 3.10).
#[derive(Clone, Copy)]
pub enum OneOperator {
    /// `-`.
    Minus,
    /// `+`.
    Plus,
    /// `castable as`, where the empty list is taken or not.
    Castable(AtomType, bool),
    /// `cast as`, where the empty list is taken or not.
    Cast(AtomType, bool),
}

/// The value of an operator on its operands, or the code of its first error (XPath 2.0, 3.3
/// to 3.5).
#[inline(never)]
pub fn apply(
    alloc: Global,
    operator: Operator,
    left: &ItemList,
    right: &ItemList,
) -> Result<ItemList, ValueFault>
    ensures { Answers (value_of_two operator left.now right.now) result }
{
    match operator {
        Operator::General(op) => general(alloc, op, left, right),
        Operator::Value(op) => single(alloc, op, left, right),
        Operator::Is => is(alloc, left, right),
        Operator::Before => before(alloc, left, right),
        Operator::After => after(alloc, left, right),
        Operator::Range => range_list(alloc, left, right),
        Operator::Arith(op) => arithmetic(alloc, op, left, right),
        Operator::Union => union(alloc, left, right),
        Operator::Intersect => intersect(alloc, left, right),
        Operator::Except => except(alloc, left, right),
    }
}

fn range_list(alloc: Global, left: &ItemList, right: &ItemList) -> Result<ItemList, ValueFault>
    ensures { Answers (range_value left.now right.now) result }
{
    let integers = range(alloc, left, right)?;
    Ok(integers.to_list(alloc)?)
}

/// The same of one operand (XPath 2.0, 3.4 and 3.10).
#[inline(never)]
pub fn apply_to_one(
    alloc: Global,
    operator: OneOperator,
    operand: &ItemList,
) -> Result<ItemList, ValueFault>
    ensures { Answers (value_of_one operator operand.now) result }
{
    match operator {
        OneOperator::Minus => negated(alloc, operand),
        OneOperator::Plus => signed(alloc, operand),
        OneOperator::Castable(to, empty) => castable_list(alloc, operand, to, empty),
        OneOperator::Cast(to, empty) => cast_list(alloc, operand, to, empty),
    }
}

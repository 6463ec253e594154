// Operations on values.
ghost use Rattle.std.specs.Prelude.{◌≡◌, IfOk, Some, is_some, true};
ghost use Rattle.node_walks.specs.Moves.{given};
ghost use Rattle.operator_values.specs.Numbers.{AnswersItems};
ghost use Rattle.operator_values.specs.Types.{instance_value, treated_value};
ghost use Rattle.eval_scopes.specs.EvalValues.Operators.{value_of_one, value_of_two};
ghost use Rattle.form_values.specs.Forms.{Answer, lists_of, value_of, with_one, with_two};

use eval_scopes::eval_values::{OneOperator, Operator, apply, apply_to_one};
use lazy_seq::Seq;
use operator_values::{instance, range, treated};
use std::alloc::{AllocError, Global};
use xdm_items::ItemList;
use xt_atoms::ValueFault;
use xt_syntax::Expr;
use xt_types::SeqType;

fn list_of(alloc: Global, operand: &Seq) -> Result<ItemList, AllocError>
    ensures { IfOk result (λ list. list ≡ given operand.now.moves) }
{
    let copy = operand.copy()?;
    copy.to_list(alloc)
}

fn of_two(alloc: Global, operator: Operator, left: &Seq, right: &Seq) -> Result<Seq, ValueFault>
    ensures { AnswersItems (value_of_two operator (given left.now.moves) (given right.now.moves))
        result }
{
    let left = list_of(alloc, left)?;
    let right = list_of(alloc, right)?;
    match operator {
        Operator::Range => range(alloc, &left, &right),
        _ => Ok(Seq::of_list(apply(alloc, operator, &left, &right)?)),
    }
}

fn on_two(alloc: Global, operator: Operator, operands: &[Seq]) -> Result<Seq, ValueFault>
    requires { is_some (with_two (value_of_two operator) (lists_of operands.now)) ≡ true }
    ensures { (answer : Answer) →
        with_two (value_of_two operator) (lists_of operands.now) ≡ Some answer →
        AnswersItems answer result }
{
    match operands {
        [left, right] => of_two(alloc, operator, left, right),
        _ => unreachable!(),
    }
}

fn of_one(alloc: Global, operator: OneOperator, operand: &Seq) -> Result<Seq, ValueFault>
    ensures { AnswersItems (value_of_one operator (given operand.now.moves)) result }
{
    let list = list_of(alloc, operand)?;
    Ok(Seq::of_list(apply_to_one(alloc, operator, &list)?))
}

fn on_one(alloc: Global, operator: OneOperator, operands: &[Seq]) -> Result<Seq, ValueFault>
    requires { is_some (with_one (value_of_one operator) (lists_of operands.now)) ≡ true }
    ensures { (answer : Answer) →
        with_one (value_of_one operator) (lists_of operands.now) ≡ Some answer →
        AnswersItems answer result }
{
    match operands {
        [operand] => of_one(alloc, operator, operand),
        _ => unreachable!(),
    }
}

fn of_instance(alloc: Global, kind: &SeqType, operand: &Seq) -> Result<Seq, ValueFault>
    ensures { AnswersItems (instance_value kind.now (given operand.now.moves)) result }
{
    let list = list_of(alloc, operand)?;
    Ok(Seq::of_list(instance(alloc, &list, kind)?))
}

fn on_instance(alloc: Global, kind: &SeqType, operands: &[Seq]) -> Result<Seq, ValueFault>
    requires { is_some (with_one (instance_value kind.now) (lists_of operands.now)) ≡ true }
    ensures { (answer : Answer) →
        with_one (instance_value kind.now) (lists_of operands.now) ≡ Some answer →
        AnswersItems answer result }
{
    match operands {
        [operand] => of_instance(alloc, kind, operand),
        _ => unreachable!(),
    }
}

fn of_treated(alloc: Global, kind: &SeqType, operand: &Seq) -> Result<Seq, ValueFault>
    ensures { AnswersItems (treated_value kind.now (given operand.now.moves)) result }
{
    let list = list_of(alloc, operand)?;
    Ok(Seq::of_list(treated(list, kind)?))
}

fn on_treated(alloc: Global, kind: &SeqType, operands: &[Seq]) -> Result<Seq, ValueFault>
    requires { is_some (with_one (treated_value kind.now) (lists_of operands.now)) ≡ true }
    ensures { (answer : Answer) →
        with_one (treated_value kind.now) (lists_of operands.now) ≡ Some answer →
        AnswersItems answer result }
{
    match operands {
        [operand] => of_treated(alloc, kind, operand),
        _ => unreachable!(),
    }
}

/// What an operator or a test of types gives of operands that are evaluated, or the code of its
/// error (XPath 2.0, 3.3 to 3.5 and 3.10). The expression is of such a form, and there is one
/// operand for each expression that it holds.
pub fn on_values(alloc: Global, expr: &Expr, operands: &[Seq]) -> Result<Seq, ValueFault>
    requires { is_some (value_of expr.now (lists_of operands.now)) ≡ true }
    ensures { (answer : Answer) → value_of expr.now (lists_of operands.now) ≡ Some answer →
        AnswersItems answer result }
{
    match expr {
        Expr::General(op, _, _) => on_two(alloc, Operator::General(*op), operands),
        Expr::Value(op, _, _) => on_two(alloc, Operator::Value(*op), operands),
        Expr::Is(_, _) => on_two(alloc, Operator::Is, operands),
        Expr::Before(_, _) => on_two(alloc, Operator::Before, operands),
        Expr::After(_, _) => on_two(alloc, Operator::After, operands),
        Expr::Range(_, _) => on_two(alloc, Operator::Range, operands),
        Expr::Arith(op, _, _) => on_two(alloc, Operator::Arith(*op), operands),
        Expr::Minus(_) => on_one(alloc, OneOperator::Minus, operands),
        Expr::Plus(_) => on_one(alloc, OneOperator::Plus, operands),
        Expr::Union(_, _) => on_two(alloc, Operator::Union, operands),
        Expr::Intersect(_, _) => on_two(alloc, Operator::Intersect, operands),
        Expr::Except(_, _) => on_two(alloc, Operator::Except, operands),
        Expr::InstanceOf(_, of) => on_instance(alloc, of, operands),
        Expr::Treat(_, to) => on_treated(alloc, to, operands),
        Expr::Castable(_, to, empty) => {
            on_one(alloc, OneOperator::Castable(*to, *empty), operands)
        }
        Expr::Cast(_, to, empty) => on_one(alloc, OneOperator::Cast(*to, *empty), operands),
        _ => unreachable!(),
    }
}

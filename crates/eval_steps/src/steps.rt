// What is done between evaluations.
ghost use Rattle.std.specs.Prelude.{◌≡◌, ◌∷◌, [], ◌++◌, ◌≤◌, ℕ, Bool, IfOk, OnOk, pos};
ghost use Rattle.std.specs.Prelude.{List as Lists, ℤ, Some};
ghost use Rattle.xt_syntax.specs.declared.exprs.Expr.TheVariants.{Int};
ghost use Rattle.xt_atoms.specs.declared.atoms.Atom.TheVariants.{Str};
ghost use Rattle.xdm_items.specs.declared.items.Item.TheVariants.{Atom as as_atom};
ghost use Rattle.xt_syntax.specs.declared.exprs.Clause.TheViews.{out-Bind};
ghost use Rattle.xdm_items.specs.FunctionArguments.Answers.{of_integer};
ghost use Rattle.eval_steps.specs.Lists.{AnswersAs, AnswersNext, AnswersPushed, IsPushed};
ghost use Rattle.eval_lates.specs.NodeWalks.Moves.{given};
ghost use Rattle.eval_steps.specs.Steps.{alone, bound_outcome, item_count, path_count};
ghost use Rattle.xdm_items.specs.Truth.{truth_of};
ghost use Rattle.expr_meaning.specs.Outcomes.Outcome.{Outcome, Ends, step_outcome, and_then};
ghost use Rattle.expr_meaning.specs.SortMeaning.Sorted.{key_cell as cell_of_key};
ghost use Rattle.xt_atoms.specs.Casts.{wrong_type};
ghost use Rattle.expr_meaning.specs.Logic.{as_items, typed};
ghost use Rattle.expr_meaning.specs.Paths.{step_items, kept_at};
ghost use Rattle.expr_meaning.specs.Paths.{path_value as value_of_path};
ghost use Rattle.eval_lates.specs.LazySeq.Orders.{in_document_order};
ghost use Rattle.expr_meaning.specs.Making.{literal_node};
ghost use Rattle.expr_meaning.specs.Values.{of_focus};
ghost use Rattle.xt_tree.specs.declared.trees.Tree.TheVariants.{Attr as attribute_tree};
ghost use Rattle.eval_lates.specs.EvalScopes.Answers.{Answers};
ghost use Rattle.eval_lates.specs.EvalScopes.Scopes.{binding_of, env_of};

use eval_lates::eval_scopes::eval_values::{
    Place, is_kept, key_cell, one, path_value, step, typed,
};
use eval_lates::eval_scopes::{Env, EvalFault, Focus, Variable};
use eval_lates::late_next;
use eval_lates::lazy_seq::Seq;
use eval_lates::operator_values::{are_nodes, in_order};
use eval_nodes::attribute_node;
use std::alloc::{AllocError, Global};
use xdm_items::function_arguments::{integer_list, text_list, truth_list as list_of_truth};
use xdm_items::{Item, ItemList, ebv};
use xt_atoms::Atom;
use xt_names::{Code, DynamicCode, ExprName, List, Name, Text};
use xt_syntax::{Bind, Expr};
use xt_types::{Axis, Test};

/// The error of a key of two atoms, and of keys of two kinds (XQuery 1.0, 3.8.3).
pub const WRONG_TYPE: Code = Code::Dynamic(DynamicCode::XPTY0004);

/// The list of an integer's literal (XPath 2.0, 3.1.1).
#[inline(never)]
pub fn literal_integer(alloc: Global, number: i64) -> Result<ItemList, EvalFault>
    ensures { (k : ℕ) → Answers result k (Ends (of_integer number) k) }
{
    Ok(integer_list(alloc, number)?)
}

/// The list of a literal (XPath 2.0, 3.1.1).
#[inline(never)]
pub fn literal_text(alloc: Global, text: &Text) -> Result<ItemList, EvalFault>
    ensures { (k : ℕ) → Answers result k (Ends (as_atom (Str text.now) ∷ []) k) }
{
    Ok(text_list(alloc, text.copy()?)?)
}

/// The list of a truth value, with the fault of what gave it (XPath 2.0, 3.6).
#[inline(never)]
pub fn truth_list(alloc: Global, truth: Result<bool, EvalFault>) -> Result<ItemList, EvalFault>
    ensures { (k : ℕ) (o : Outcome Bool) → Answers truth k o → Answers result k (as_items o) }
{
    Ok(list_of_truth(alloc, truth?)?)
}

/// The truth value of a list (XPath 2.0, 2.4.3).
#[inline(never)]
pub fn truth_of(list: ItemList) -> Result<bool, EvalFault>
    ensures { (k : ℕ) → Answers result k (step_outcome (truth_of list) k) }
{
    let truth = ebv(&list)?;
    drop(list);
    Ok(truth)
}

/// The variable of a binding at an item, which has the type that is written (XPath 2.0, 3.7 and 3.9).
#[inline(never)]
pub fn bound_item(alloc: Global, bind: &Bind, item: &Item) -> Result<Variable, EvalFault>
    ensures { (k : ℕ) → AnswersAs binding_of result k
        (bound_outcome (out-Bind bind.now).var (typed (out-Bind bind.now).kind (item.now ∷ [])) k) }
{
    let items = typed(&bind.kind, one(alloc, item.copy()?)?)?;
    Ok(Variable {
        name: bind.var.copy()?,
        value: Seq::of_list(items),
    })
}

/// The variable of a `let`, with its value held so that copies share it (XQuery 1.0, 3.8.1).
#[inline(never)]
pub fn bound_list(alloc: Global, bind: &Bind, items: ItemList) -> Result<Variable, EvalFault>
    ensures { (k : ℕ) → AnswersAs binding_of result k
        (bound_outcome (out-Bind bind.now).var (typed (out-Bind bind.now).kind items) k) }
{
    let items = typed(&bind.kind, items)?;
    Ok(Variable {
        name: bind.var.copy()?,
        value: Seq::of_list(items).share(alloc)?,
    })
}

/// The variable of the position of a `for` (XQuery 1.0, 3.8.1).
#[inline(never)]
pub fn bound_place(alloc: Global, at: &ExprName, place: Place) -> Result<Variable, AllocError>
    ensures { IfOk result (λ v. binding_of v ≡ (at.now, of_integer (pos place))) }
{
    Ok(Variable {
        name: at.copy()?,
        value: Seq::of_list(integer_list(alloc, place.get())?),
    })
}

/// How many nodes stand before `/` (XPath 2.0, 3.2); XPTY0019 where one of the items is none.
#[inline(never)]
pub fn path_size(items: &[Item]) -> Result<Place, EvalFault>
    ensures { (k : ℕ) → Answers result k (step_outcome (path_count items.now) k) }
{
    if are_nodes(items) {
        list_size(items)
    } else {
        Err(EvalFault::Error(Code::Dynamic(DynamicCode::XPTY0019)))
    }
}

/// How many items there are (XPath 2.0, 3.3.2); FOAR0002 past 2^63-1.
pub fn list_size(items: &[Item]) -> Result<Place, EvalFault>
    ensures { (k : ℕ) → Answers result k (step_outcome (item_count items.now) k) }
{
    match Place::new(items.len()) {
        Some(size) => Ok(size),
        None => Err(EvalFault::Error(Code::Dynamic(DynamicCode::FOAR0002))),
    }
}

/// What a path gives of the lists of its right side (XPath 2.0, 3.2).
#[inline(never)]
pub fn path_items(alloc: Global, items: ItemList) -> Result<ItemList, EvalFault>
    ensures { (k : ℕ) → Answers result k (step_outcome (value_of_path items) k) }
{
    Ok(path_value(alloc, items)?)
}

/// The nodes of a step in document order (XPath 2.0, 3.2.1).
#[inline(never)]
pub fn ordered_items(alloc: Global, items: ItemList) -> Result<ItemList, EvalFault>
    ensures { (k : ℕ) → Answers result k (Ends (in_document_order items) k) }
{
    Ok(in_order(alloc, items)?)
}

/// The place of an item in a list of that size, both counted from 1 (XPath 2.0, 3.3.2).
pub fn place_in(size: Place, place: usize) -> Place
    ensures { place ≤ size → result ≡ place }
{
    match Place::new(place) {
        Some(place) => place,
        None => size,
    }
}

/// The nodes of a step from the context item (XPath 2.0, 3.2.1); XPDY0002 where there is none.
#[inline(never)]
pub fn step_from(alloc: Global, env: &Env, axis: Axis, test: &Test) -> Result<ItemList, EvalFault>
    ensures { (k : ℕ) → Answers result k
        (step_outcome (of_focus (λ f. step_items axis test.now f.value) (env_of env.now).focus) k) }
{
    match env.focus {
        Focus::Absent => Err(EvalFault::Error(Code::Dynamic(DynamicCode::XPDY0002))),
        Focus::At { item, .. } => Ok(step(alloc, axis, test, item)?),
    }
}

/// Whether the value of a predicate keeps the item at the position (XPath 2.0, 3.3.2).
#[inline(never)]
pub fn is_kept_at(position: Place, value: ItemList) -> Result<bool, EvalFault>
    ensures { (k : ℕ) → Answers result k (step_outcome (kept_at position value) k) }
{
    let keeps = is_kept(position, &value)?;
    drop(value);
    Ok(keeps)
}

/// Puts the item at the end, if it is kept (XPath 2.0, 3.3.2).
#[inline(never)]
pub fn push_kept(list: &mut ItemList, item: &Item, keeps: bool) -> Result<(), AllocError>
    ensures { OnOk result (list.new ≡ list.old ++ alone item.now keeps) }
{
    if keeps {
        list.push(item.copy()?)?;
    }
    Ok(())
}

/// Puts an argument at the end (XPath 2.0, 3.1.5).
#[inline(never)]
pub fn push_list(lists: &mut Vec<ItemList>, list: ItemList) -> Result<(), AllocError>
    ensures { OnOk result (lists.new.items ≡ lists.old.items ++ list ∷ []) }
{
    lists.push(list)?;
    Ok(())
}

/// Binds a variable within those that are bound already (XQuery 1.0, 3.8.1).
#[inline(never)]
pub fn push_variable(bound: &mut Vec<Variable>, variable: Variable) -> Result<(), AllocError>
    ensures { OnOk result (bound.new.items ≡ bound.old.items ++ variable ∷ []) }
{
    bound.push(variable)?;
    Ok(())
}

/// Binds the variable of a `for` to an item within those that are bound already (XPath 2.0, 3.7 and
/// 3.9). Who calls holds no variable of its own, so that its frame on the stack stays small.
#[inline(never)]
pub fn push_item(
    alloc: Global,
    bound: &mut Vec<Variable>,
    bind: &Bind,
    item: &Item,
) -> Result<(), EvalFault>
    ensures { (k : ℕ) → AnswersPushed result bound.old.items bound.new.items k
        (bound_outcome (out-Bind bind.now).var (typed (out-Bind bind.now).kind (item.now ∷ [])) k) }
{
    let variable = bound_item(alloc, bind, item)?;
    push_variable(bound, variable)?;
    Ok(())
}

/// Takes the first item of a sequence out, and binds the variable of a quantifier to it; false
/// where there is none. None after it is looked for (XPath 2.0, 3.9).
#[inline(never)]
pub fn push_next(
    alloc: Global,
    bound: &mut Vec<Variable>,
    bind: &Bind,
    items: &mut Seq,
) -> Result<bool, EvalFault>
    ensures { (k : ℕ) → AnswersNext (λ x. bound_outcome (out-Bind bind.now).var
        (typed (out-Bind bind.now).kind (x ∷ []))) result bound.old.items bound.new.items
        (given items.old.moves) (given items.new.moves) k }
{
    match late_next(items)? {
        None => Ok(false),
        Some(item) => {
            push_taken(alloc, bound, bind, item)?;
            Ok(true)
        }
    }
}

fn push_taken(
    alloc: Global,
    bound: &mut Vec<Variable>,
    bind: &Bind,
    item: Item,
) -> Result<(), EvalFault>
    ensures { (k : ℕ) → AnswersPushed result bound.old.items bound.new.items k
        (bound_outcome (out-Bind bind.now).var (typed (out-Bind bind.now).kind (item ∷ [])) k) }
{
    let pushed = push_item(alloc, bound, bind, &item);
    drop(item);
    pushed
}

/// Binds the variable of a `let` within those that are bound already (XQuery 1.0, 3.8.1).
#[inline(never)]
pub fn push_value(
    alloc: Global,
    bound: &mut Vec<Variable>,
    bind: &Bind,
    items: ItemList,
) -> Result<(), EvalFault>
    ensures { (k : ℕ) → AnswersPushed result bound.old.items bound.new.items k
        (bound_outcome (out-Bind bind.now).var (typed (out-Bind bind.now).kind items) k) }
{
    let variable = bound_list(alloc, bind, items)?;
    push_variable(bound, variable)?;
    Ok(())
}

/// Binds the variable of the position of a `for` within those that are bound already (XQuery 1.0,
/// 3.8.1).
#[inline(never)]
pub fn push_position(
    alloc: Global,
    bound: &mut Vec<Variable>,
    at: &ExprName,
    place: Place,
) -> Result<(), AllocError>
    ensures { OnOk result (IsPushed (at.now, of_integer (pos place)) bound.old.items
        bound.new.items) }
{
    let variable = bound_place(alloc, at, place)?;
    push_variable(bound, variable)?;
    Ok(())
}

/// Takes the innermost variable off (XQuery 1.0, 3.8.1).
#[inline(never)]
pub fn pop_variable(bound: &mut Vec<Variable>)
    ensures { (others : Lists Variable) (v : Variable) → bound.old.items ≡ others ++ v ∷ [] →
        bound.new.items ≡ others }
{
    drop(bound.pop());
}

/// Puts an attribute of a direct element at the end (XQuery 1.0, 3.7.1.1).
#[inline(never)]
pub fn push_attribute(
    alloc: Global,
    list: &mut ItemList,
    name: &Name,
    value: Text,
) -> Result<(), AllocError>
    ensures { OnOk result (list.new ≡ list.old ++ literal_node (attribute_tree name.now value) ∷ []) }
{
    list.push(attribute_node(alloc, name.copy()?, value)?)?;
    Ok(())
}

/// Puts a key at the end of a row (XQuery 1.0, 3.8.3).
#[inline(never)]
pub fn push_cell(cells: &mut List<Option<Atom>>, cell: Option<Atom>) -> Result<(), AllocError>
    ensures { OnOk result (cells.new ≡ cells.old ++ cell ∷ []) }
{
    cells.push(cell)?;
    Ok(())
}

/// The key that a list is (XQuery 1.0, 3.8.3); XPTY0004 of two items.
#[inline(never)]
pub fn tuple_key(alloc: Global, list: ItemList) -> Result<Option<Atom>, EvalFault>
    ensures { (k : ℕ) → Answers result k (step_outcome (cell_of_key wrong_type list) k) }
{
    let cell = key_cell(alloc, WRONG_TYPE, &list)?;
    drop(list);
    Ok(cell)
}

/// The position that the only predicate is, where it is a literal (XPath 2.0, 3.3.2).
#[inline(never)]
pub fn literal_place(tests: &[Expr]) -> Option<i64>
    ensures { (n : ℤ) → result ≡ Some n → tests.now ≡ Int n ∷ [] }
{
    match tests {
        [Expr::Int(place)] => Some(*place),
        _ => None,
    }
}

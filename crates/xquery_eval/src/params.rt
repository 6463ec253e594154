// Values from outside, and those of parameters.
ghost use Rattle.std.specs.Prelude.{◌≡◌, ◌++◌, ◌∷◌, [], IfOk, OnOk, slice_get};
ghost use Rattle.std.specs.Option.{option_copied};
ghost use Rattle.xt_atoms.specs.Casts.{Answers};
ghost use Rattle.expr_meaning.specs.Queries.{bound_params, converted_to, external_name};
ghost use Rattle.expr_meaning.specs.Queries.{external_value, given_text};
ghost use Rattle.eval_scopes.specs.Scopes.{binding_of, pushed_on};
ghost use Rattle.xquery_eval.specs.Runs.{given_of, text_behind, AnswersBound, AnswersParam};

use eval_scopes::Variable;
use eval_scopes::eval_values::one;
use lazy_seq::Seq;
use std::alloc::{AllocError, Global};
use xdm_items::{Item, ItemList, convert, copy_item_list};
use xt_atoms::{Atom, ValueFault};
use xt_names::{Code, DynamicCode, ExprName, Text};
use xt_syntax::QueryParam;
use xt_types::SeqType;

/// A value from outside: a name without a namespace, and its text.
#[derive(Drop)]
pub struct Param {
    pub name: Text,
    pub value: Text,
}

/// The items as values of the type, if one is written (XPath 2.0, 3.1.5).
pub(crate) fn converted_to(
    alloc: Global,
    kind: &Option<SeqType>,
    items: ItemList,
) -> Result<ItemList, ValueFault>
    ensures { Answers (converted_to kind.now items) result }
{
    match kind {
        None => Ok(items),
        Some(kind) => convert(alloc, items, kind),
    }
}

/// The parameters of a function with their arguments, each converted in turn; the first is
/// innermost.
pub(crate) fn bound_params(
    alloc: Global,
    params: &[QueryParam],
    lists: &[ItemList],
) -> Result<Vec<Variable>, ValueFault>
    ensures { AnswersBound (bound_params params.now lists.now) result }
{
    let mut bound = Vec::new(alloc);
    for place in 0..params.len() {
        if let Some(list) = list_at(lists, place) {
            push_bound(&mut bound, bound_to(alloc, &params[place], list)?)?;
        }
    }
    bound.reverse();
    Ok(bound)
}

fn list_at<'a>(lists: &'a [ItemList], place: usize) -> Option<&'a ItemList>
    ensures { option_copied result ≡ slice_get lists.entry.now place }
{
    lists.get(place)
}

/// The parameter with its argument, converted to its type.
fn bound_to(alloc: Global, param: &QueryParam, list: &ItemList) -> Result<Variable, ValueFault>
    ensures { AnswersParam param.now (converted_to param.now.kind list.now) result }
{
    let value = converted_to(alloc, &param.kind, copy_item_list(list)?)?;
    Ok(held(alloc, &param.name, value)?)
}

/// The text that is given to a name without a namespace.
fn given_text<'a>(given: &'a [Param], name: &Text) -> Option<&'a Text>
    ensures { text_behind result ≡ given_text (given_of given.entry.now) name.now }
{
    for param in given {
        if param.name == *name {
            return Some(&param.value);
        }
    }
    None
}

fn external_name<'a>(given: &'a [Param], name: &ExprName) -> Option<&'a Text>
    ensures { text_behind result ≡ external_name (given_of given.entry.now) name.now }
{
    if name.uri.is_empty() {
        given_text(given, &name.local)
    } else {
        None
    }
}

/// The value of an external variable: the text that is given to it, as an untyped atom that is
/// converted to its type; XPDY0002 where none is given (XQuery 1.0, 4.14).
pub(crate) fn external_value(
    alloc: Global,
    kind: &Option<SeqType>,
    given: &[Param],
    name: &ExprName,
) -> Result<ItemList, ValueFault>
    ensures { Answers (external_value kind.now (external_name (given_of given.now) name.now))
        result }
{
    match external_name(given, name) {
        None => Err(ValueFault::Error(Code::Dynamic(DynamicCode::XPDY0002))),
        Some(text) => {
            let value = one(alloc, Item::Atom(Atom::Untyped(text.copy()?)))?;
            converted_to(alloc, kind, value)
        }
    }
}

/// Binds a variable within those that are bound already.
fn push_bound(bound: &mut Vec<Variable>, variable: Variable) -> Result<(), AllocError>
    ensures { OnOk result (bound.new.items ≡ bound.old.items ++ variable ∷ []) }
{
    bound.push(variable)?;
    Ok(())
}

/// The variable with its value, held so that copies share it.
pub(crate) fn held(alloc: Global, name: &ExprName, value: ItemList) -> Result<Variable, AllocError>
    ensures { IfOk result (λ v. binding_of v ≡ (name.now, value)) }
{
    Ok(Variable {
        name: name.copy()?,
        value: Seq::of_list(value).share(alloc)?,
    })
}

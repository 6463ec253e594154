// The item at a place.
ghost use Rattle.std.specs.Prelude.{◌≡◌, ◌<◌, ◌^◌, ℕ, ◌∷◌, [], IfOk, OnOk, length, nat_lt};
ghost use Rattle.std.specs.Option.{option_to_list};
ghost use Rattle.eval_scopes.specs.NodeWalks.Moves.{given};
ghost use Rattle.eval_scopes.specs.LazySeq.Flow.{item_at};
ghost use Rattle.expr_meaning.specs.Outcomes.Outcome.{Ends};
ghost use Rattle.expr_meaning.specs.Env.{Env};
ghost use Rattle.expr_meaning.specs.Paths.{kept};
ghost use Rattle.eval_scopes.specs.Answers.{Answers};
ghost use Rattle.eval_lates.specs.Late.{literal};

use eval_scopes::EvalFault;
use eval_scopes::eval_values::one;
use eval_scopes::lazy_seq::Seq;
use std::alloc::{AllocError, Global};
use xdm_items::{Item, ItemList};
use xt_names::{Code, DynamicCode};

/// Whether there are at most 2^63-1 items.
fn can_be_counted(items: &mut Seq) -> Result<bool, AllocError>
    ensures same { items.new ≡ items.old }
    ensures count { IfOk result (λ b. b ≡ nat_lt (length (given items.old.moves)) (2 ^ 63)) }
{
    Ok(items.len()?.is_some())
}

fn list_of(alloc: Global, item: Option<Item>) -> Result<ItemList, AllocError>
    ensures { IfOk result (λ list. list ≡ option_to_list item) }
{
    match item {
        Some(item) => one(alloc, item),
        None => Ok(ItemList::new(alloc)),
    }
}

fn item_there(alloc: Global, items: Seq, place: i64) -> Result<ItemList, AllocError>
    ensures { IfOk result (λ list. list ≡ option_to_list (item_at place (given items.moves))) }
{
    let mut items = items;
    let found = items.at(place)?;
    drop(items);
    list_of(alloc, found)
}

/// What a predicate that is an integer keeps of at most 2^63-1 items: the item at that position,
/// which counts from 1 (XPath 2.0, 3.3.2). Those after it are not looked for.
pub fn late_place(alloc: Global, items: Seq, place: i64) -> Result<ItemList, AllocError>
    requires { length (given items.moves) < 2 ^ 63 }
    ensures { (env : Env) (k : ℕ) → IfOk result (λ list.
        kept (literal place) env (given items.moves) k ≡ Ends list k) }
{
    item_there(alloc, items, place)
}

/// What a predicate that is an integer keeps: the item at that position, which counts from 1
/// (XPath 2.0, 3.3.2); FOAR0002 where there are more than 2^63-1 items.
#[inline(never)]
pub fn late_item(alloc: Global, items: Seq, place: i64) -> Result<ItemList, EvalFault>
    ensures { (env : Env) (k : ℕ) → Answers result k
        (kept (literal place) env (given items.moves) k) }
{
    let mut items = items;
    let counted = can_be_counted(&mut items)?;
    if counted {
        Ok(item_there(alloc, items, place)?)
    } else {
        drop(items);
        Err(EvalFault::Error(Code::Dynamic(DynamicCode::FOAR0002)))
    }
}

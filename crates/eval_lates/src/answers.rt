// What functions of one argument give of a sequence.
ghost use Rattle.std.specs.Prelude.{◌≡◌, ◌<◌, ◌∷◌, [], ◌^◌, IfOk, length, not, pos};
ghost use Rattle.std.specs.Option.{SomeIff};
ghost use Rattle.xt_atoms.specs.Casts.{Answers};
ghost use Rattle.eval_scopes.specs.NodeWalks.Moves.{given, has_item};
ghost use Rattle.std.specs.Bool.{beq};
ghost use Rattle.std.specs.Prelude.{Ok as is_ok};
ghost use Rattle.xdm_items.specs.FunctionArguments.Answers.{of_truth};
ghost use Rattle.item_functions.specs.OnSequences.{count_of};
ghost use Rattle.eval_scopes.specs.FnLib.Functions.{function_value};

use eval_scopes::fn_lib::{Builtin, call};
use eval_scopes::lazy_seq::Seq;
use node_axes::Steps;
use std::alloc::{AllocError, Global};
use std::marker::Brand;
use std::sync::ledger::{Blank, Ledger};
use xdm_items::ItemList;
use xdm_items::function_arguments::{integer_list, truth_list};
use xt_atoms::ValueFault;
use xt_names::{Code, DynamicCode};

/// Whether there is no item; at most the first one is made.
fn is_empty<L: Ledger>(blank: Blank, items: &mut Seq) -> Result<bool, AllocError>
    requires name { blank.name ≡ L.name }
    requires parts { blank.parts ≡ L.parts }
    requires one { 0 < blank.parts }
    ensures { IfOk result (λ empty. empty ≡ not (has_item (given items.old.moves))) }
{
    let mut steps = Steps::<L>::begin(blank);
    items.is_empty(&mut steps)
}

/// How many items there are; FOAR0002 past 2^63-1 (Functions and Operators, 15.4.1).
fn count(alloc: Global, items: Seq) -> Result<ItemList, ValueFault>
    ensures { Answers (count_of (given items.moves)) result }
{
    let mut items = items;
    let count = items.len()?;
    drop(items);
    match count {
        Some(count) => Ok(integer_list(alloc, count)?),
        None => Err(ValueFault::Error(Code::Dynamic(DynamicCode::FOAR0002))),
    }
}

/// Whether there is an item, or none (Functions and Operators, 15.1.3 and 15.1.4).
fn has_any(alloc: Global, items: Seq, wanted: bool) -> Result<ItemList, ValueFault>
    ensures { Answers (is_ok (of_truth (beq (has_item (given items.moves)) wanted))) result }
{
    let mut items = items;
    let empty = is_empty::<Brand>(Blank::new(1), &mut items)?;
    drop(items);
    Ok(truth_list(alloc, empty != wanted)?)
}

/// What the function gives of one argument (XPath 2.0, 3.1.5). count(), exists() and empty() ask
/// the sequence; all others get its list.
#[inline(never)]
pub fn late_answer(alloc: Global, f: Builtin, items: Seq) -> Result<ItemList, ValueFault>
    ensures { Answers (function_value f (given items.moves ∷ [])) result }
{
    match f {
        Builtin::Count => count(alloc, items),
        Builtin::Exists => has_any(alloc, items, true),
        Builtin::Empty => has_any(alloc, items, false),
        _ => {
            let list = [items.to_list(alloc)?];
            call(alloc, f, &list)
        }
    }
}

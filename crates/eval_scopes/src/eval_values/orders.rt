// Rows of keys.
ghost use Rattle.std.specs.Prelude.{◌≡◌, map};
ghost use Rattle.xt_atoms.specs.Casts.{Answers, wrong_type};
ghost use Rattle.expr_meaning.specs.SortMeaning.Sorted.{key_cell};
ghost use Rattle.eval_scopes.specs.EvalValues.Orders.{places_in_order};

use expr_meaning::operator_values::atom_of;
use order_group::{KeyRow, SortFault, sort_by_keys};
use std::alloc::Global;
use xdm_items::ItemList;
use xt_atoms::{Atom, ValueFault};
use xt_names::{Code, DynamicCode, List};

const WRONG_TYPE: Code = Code::Dynamic(DynamicCode::XPTY0004);

/// The key that a list is: none of the empty one, and else its only item made an atom; `many` where
/// it has two (XQuery 1.0, 3.8.3; XSLT 2.0, 13.1.1).
pub fn key_cell(alloc: Global, many: Code, items: &ItemList) -> Result<Option<Atom>, ValueFault>
    ensures { Answers (key_cell many items.now) result }
{
    match items.as_slice() {
        [] => Ok(None),
        [only] => Ok(Some(atom_of(alloc, only)?)),
        [_, _, ..] => Err(ValueFault::Error(many)),
    }
}

/// The places of the rows, from 0, in the one stable order of their keys; `mixed` where a column
/// holds keys of two kinds or a QName (XQuery 1.0, 3.8.3; XSLT 2.0, 13.1.2).
#[inline(never)]
pub fn sorted_places(
    alloc: Global,
    mixed: Code,
    rows: &List<KeyRow>,
    descending: &[bool],
) -> Result<List<u64>, ValueFault>
    ensures { Answers (places_in_order mixed descending.now rows.now) result }
{
    match sort_by_keys(alloc, rows, descending) {
        Ok(places) => Ok(places),
        Err(SortFault::Mixed(_)) => Err(ValueFault::Error(mixed)),
        Err(SortFault::Memory(e)) => Err(ValueFault::Memory(e)),
    }
}

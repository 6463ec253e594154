// Predicates and types of bindings.
ghost use Rattle.std.specs.Prelude.{◌≡◌};
ghost use Rattle.expr_meaning.specs.Paths.{kept_at};
ghost use Rattle.expr_meaning.specs.Logic.{typed};

use crate::eval_values::places::Place;
use xdm_items::{Item, ItemList, ebv, matches};
use xt_atoms::Atom;
use xt_names::{Code, DynamicCode};
use xt_types::SeqType;

/// Whether a predicate with this value keeps the item at the position (XPath 2.0, 3.3.2): an
/// integer alone by the position, all else by its truth value, which may fail with FORG0006.
pub fn is_kept(position: Place, value: &ItemList) -> Result<bool, Code>
    ensures { result ≡ kept_at position value.now }
{
    match value.as_slice() {
        [Item::Atom(Atom::Int(number))] => Ok(position.get() == *number),
        _ => ebv(value),
    }
}

/// The items where they are of the type, if one is written; XPTY0004 where they are not (XQuery
/// 1.0, 3.8.1).
#[tactic(auto, unfolding(xdm_items::specs::Conversion::matched))]
pub fn typed(kind: &Option<SeqType>, items: ItemList) -> Result<ItemList, Code>
    ensures { result ≡ typed kind.now items }
{
    match kind {
        None => Ok(items),
        Some(kind) => {
            if matches(&items, kind) {
                Ok(items)
            } else {
                drop(items);
                Err(Code::Dynamic(DynamicCode::XPTY0004))
            }
        }
    }
}

// Sequence types.
ghost use Rattle.std.specs.Prelude.{◌≡◌};
ghost use Rattle.std.specs.List.{list_all};
ghost use Rattle.xdm_items.specs.Matching.{has_atom_type, matches_item, allows_count, matches_type};

use crate::items::Item;
use crate::lists::ItemList;
use node_tests::node_passes;
use xt_atoms::Atom;
use xt_names::AtomType;
use xt_types::{Axis, Count, ItemType, SeqType};

/// Whether the items match the type (XPath 2.0, 2.5.4): so many of them as it allows, each of its item type. An atom
/// matches its own type and xs:anyAtomicType.
#[tactic(auto, unfolding(crate::specs::Matching::matches_type))]
pub fn matches(items: &ItemList, to: &SeqType) -> bool
    ensures { result ≡ matches_type to.now items.now }
{
    match to {
        SeqType::Empty => items.is_empty(),
        SeqType::Of(item, count) => {
            allows_count(*count, items.len()) && all_match(item, items.as_slice())
        }
    }
}

#[tactic(auto, unfolding(crate::specs::Matching::allows_count))]
fn allows_count(count: Count, items: usize) -> bool
    ensures { result ≡ allows_count count items }
{
    match count {
        Count::One => items == 1,
        Count::Opt => items <= 1,
        Count::Many => true,
        Count::More => 0 < items,
    }
}

fn all_match(kind: &ItemType, items: &[Item]) -> bool
    ensures { result ≡ list_all (matches_item kind.now) items.now }
{
    items.iter().all(|item| matches_item(kind, item))
}

/// Whether the item matches the item type.
#[tactic(auto, unfolding(crate::specs::Matching::matches_item))]
pub fn matches_item(kind: &ItemType, item: &Item) -> bool
    ensures { result ≡ matches_item kind.now item.now }
{
    match kind {
        ItemType::Any => true,
        ItemType::Kind(test) => match item {
            Item::Node(node) => node_passes(test, Axis::Itself, node),
            Item::Atom(_) => false,
        },
        ItemType::Atomic(kind) => match item {
            Item::Node(_) => false,
            Item::Atom(atom) => has_atom_type(*kind, atom),
        },
    }
}

/// Whether the atom is of the atomic type.
#[tactic(auto, unfolding(crate::specs::Matching::has_atom_type))]
pub fn has_atom_type(kind: AtomType, atom: &Atom) -> bool
    ensures { result ≡ has_atom_type kind atom.now }
{
    match kind {
        AtomType::Any => true,
        AtomType::Str => matches!(atom, Atom::Str(_)),
        AtomType::Untyped => matches!(atom, Atom::Untyped(_)),
        AtomType::Int => matches!(atom, Atom::Int(_)),
        AtomType::Bool => matches!(atom, Atom::Bool(_)),
        AtomType::QName => matches!(atom, Atom::QName(_)),
    }
}

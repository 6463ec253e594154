ghost use Rattle.std.specs.Prelude.{◌≡◌, ◌++◌, ◌∷◌, [], OnOk, IfOk};
ghost use Rattle.xdm_items.specs.declared.items.Item.TheVariants.{Atom as as_atom};
ghost use Rattle.xdm_items.specs.Values.{typed_value_below, atomized_item, atomized};
ghost use Rattle.node_tests.specs.XtTree.Place.{subtree_of};

use crate::items::Item;
use crate::lists::ItemList;
use node_tests::xt_tree::{Kind, Node};
use std::alloc::{AllocError, Global};
use xt_atoms::Atom;

/// Each item made an atom (XPath 2.0, 2.4.2): the typed value of a node is its string value, untyped for a document, an
/// element, an attribute and a text, and a string for a comment and a processing instruction; atoms stay as they are.
#[tactic(auto, unfolding(crate::specs::Values::atomized))]
pub fn atomize(alloc: Global, items: &ItemList) -> Result<ItemList, AllocError>
    ensures { IfOk result (λ atoms. atoms ≡ atomized items.now) }
{
    let mut atoms = ItemList::new(alloc);
    for item in items.as_slice() {
        push_atom(alloc, item, &mut atoms)?;
    }
    Ok(atoms)
}

fn push_atom(alloc: Global, item: &Item, atoms: &mut ItemList) -> Result<(), AllocError>
    ensures { OnOk result (atoms.new ≡ atoms.old ++ atomized_item item.now ∷ []) }
{
    let atom = atom_of(alloc, item)?;
    atoms.push(Item::Atom(atom))
}

/// The item made an atom.
pub(crate) fn atom_of(alloc: Global, item: &Item) -> Result<Atom, AllocError>
    ensures { IfOk result (λ atom. as_atom atom ≡ atomized_item item.now) }
{
    match item {
        Item::Node(node) => typed_value(alloc, node),
        Item::Atom(atom) => atom.copy(),
    }
}

/// The typed value of a node (XDM, 5.15).
pub fn typed_value(alloc: Global, node: &Node) -> Result<Atom, AllocError>
    ensures { IfOk result (λ atom. atom ≡ typed_value_below (subtree_of node.now)) }
{
    let text = node.string_value(alloc)?;
    match node.kind() {
        Kind::Doc | Kind::Elem | Kind::Text | Kind::Attr => Ok(Atom::Untyped(text)),
        Kind::Comment | Kind::Pi => Ok(Atom::Str(text)),
    }
}

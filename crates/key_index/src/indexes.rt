ghost use Rattle.std.specs.Prelude.{◌≡◌, [], filter, slice_get, option_copied, IfOk, OnOk};
ghost use Rattle.xt_atoms.specs.Keys.{key_same};
ghost use Rattle.order_group.specs.Groups.{atoms_of, has_key};
ghost use Rattle.order_group.specs.Steps.{with_row};
ghost use Rattle.key_index.specs.Keys.{key_nodes, only_atom, put_found, put_pairs, put_places};
ghost use Rattle.key_index.specs.Keys.{with_pairs};

use crate::merges::places_among;
use crate::nodes::put_node;
use order_group::atom_keys::KeyTable;
use std::alloc::{AllocError, Global};
use std::marker::Model;
use xdm_items::{Item, ItemList};
use xt_atoms::Atom;
use xt_names::List;
use xt_tree::Node;

/// A node, and a value that it has for the key. A node with several values has several pairs.
#[derive(Drop)]
pub struct KeyPair {
    pub node: Node,
    pub value: Atom,
}

/// The nodes that have values for a key; contracts see the list of the pairs.
#[derive(Drop)]
pub struct KeyIndex {
    pairs: List<KeyPair>,
    table: KeyTable,
}

impl Model for KeyIndex {
    ghost use Rattle.std.specs.Prelude.{◌≡◌, [], List};
    ghost use Rattle.std.specs.Coded.{codes};
    ghost use Rattle.xt_tree.specs.Forest.{forest_code};
    ghost use Rattle.key_index.specs.Keys.{with_pairs};
    ghost use Rattle.key_index.specs.declared.indexes.KeyPair.{KeyPair};

    ghost Value = { List KeyPair };

    ghost coded = { Prim.hlevel (codes, forest_code) };

    ghost view = { λ k. k.pairs };

    ghost invariant = { λ k. k.table ≡ with_pairs [] 0 k.pairs };
}

impl KeyIndex {
    /// The index of these pairs, which stand in document order.
    pub fn build(alloc: Global, pairs: List<KeyPair>) -> Result<KeyIndex, AllocError>
        ensures { IfOk result (λ index. index ≡ pairs) }
    {
        let table = table_of(alloc, pairs.as_slice())?;
        Ok(KeyIndex { pairs, table })
    }

    /// The nodes that have a value that is the same as a given one, in the order of the pairs, each
    /// of them once. Nodes among the values are no keys: callers atomize them.
    pub fn look_up(&self, alloc: Global, values: &ItemList) -> Result<ItemList, AllocError>
        ensures { IfOk result (λ items. items ≡ key_nodes self.now values.now) }
    {
        match only_atom(values.as_slice()) {
            Some(value) => self.nodes_with(alloc, value),
            None => self.nodes_among(alloc, values.as_slice()),
        }
    }

    /// The nodes that have this value.
    fn nodes_with(&self, alloc: Global, value: &Atom) -> Result<ItemList, AllocError>
        ensures { IfOk result (λ items. items
            ≡ put_pairs [] (filter (λ p. key_same value.now p.value) self.now)) }
    {
        let places = self.table.places(value)?;
        nodes_at(alloc, self.pairs.as_slice(), places)
    }

    /// The nodes that have one of the values.
    fn nodes_among(&self, alloc: Global, values: &[Item]) -> Result<ItemList, AllocError>
        ensures { IfOk result (λ items. items ≡ key_nodes self.now values.now) }
    {
        let wanted = wanted_of(alloc, values)?.into_entries();
        let places = places_among(alloc, &self.table, wanted.as_slice())?;
        nodes_at(alloc, self.pairs.as_slice(), places.as_slice())
    }
}

fn only_atom(values: &[Item]) -> Option<&Atom>
    ensures { option_copied result ≡ only_atom values.now }
{
    match values {
        [Item::Atom(value)] => Some(value),
        _ => None,
    }
}

fn table_of(alloc: Global, pairs: &[KeyPair]) -> Result<KeyTable, AllocError>
    ensures { IfOk result (λ table. table ≡ with_pairs [] 0 pairs.now) }
{
    let mut table = KeyTable::new(alloc);
    let mut place = 0;
    for pair in pairs {
        table.add(&pair.value, place)?;
        place += 1;
    }
    Ok(table)
}

fn nodes_at(alloc: Global, pairs: &[KeyPair], places: &[u64]) -> Result<ItemList, AllocError>
    ensures { IfOk result (λ items. items ≡ put_places (slice_get pairs.now) [] places.now) }
{
    let mut items = ItemList::new(alloc);
    for place in places {
        put_place(&mut items, pairs, *place)?;
    }
    Ok(items)
}

fn put_place(items: &mut ItemList, pairs: &[KeyPair], place: u64) -> Result<(), AllocError>
    ensures { OnOk result (items.new ≡ put_found items.old (slice_get pairs.now place)) }
{
    match pairs.get(place as usize) {
        Some(pair) => put_node(items, &pair.node),
        None => Ok(()),
    }
}

/// The values as the keys of a table, each of them once.
fn wanted_of(alloc: Global, values: &[Item]) -> Result<KeyTable, AllocError>
    ensures { IfOk result (λ table. table ≡ with_row [] (atoms_of values.now) 0) }
{
    let mut wanted = KeyTable::new(alloc);
    for item in values {
        match item {
            Item::Atom(value) => wanted.add(value, 0)?,
            Item::Node(_) => {}
        }
    }
    Ok(wanted)
}

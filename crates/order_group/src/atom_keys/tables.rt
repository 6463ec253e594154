ghost use Rattle.std.specs.Prelude.{◌≡◌, ◌-◌, [], None, length, take, IfOk, OnOk, OnErr};
ghost use Rattle.indexmap.specs.IndexSet.{insert_key};
ghost use Rattle.order_group.specs.AtomKeys.Keys.{key_of};
ghost use Rattle.order_group.specs.AtomKeys.Tables.{ends_in, joined, index_of, first_entry, with_place, places_of};

use crate::atom_keys::keys::AtomKey;
use indexmap::IndexSet;
use std::alloc::{AllocError, Global};
use std::marker::Model;
use xt_atoms::Atom;
use xt_names::List;

/// A key, as it was first seen, with its places.
#[derive(Drop)]
pub struct KeyEntry {
    pub key: Atom,
    pub places: List<u64>,
}

/// Keys in the order in which they were first seen, each with its places; contracts see the list of
/// the entries.
#[derive(Drop)]
pub struct KeyTable {
    keys: IndexSet<AtomKey>,
    entries: Vec<KeyEntry>,
}

impl Model for KeyTable {
    ghost use Rattle.std.specs.Prelude.{◌≡◌, List};
    ghost use Rattle.order_group.specs.AtomKeys.Tables.{keys_of};
    ghost use Rattle.order_group.specs.declared.atom_keys.tables.KeyEntry.{KeyEntry};

    ghost Value = { List KeyEntry };

    ghost view = { λ t. t.entries.items };

    ghost invariant = { λ t. t.keys.keys ≡ keys_of t.entries.items };
}

impl KeyTable {
    /// No keys. It takes no memory.
    pub fn new(alloc: Global) -> KeyTable
        ensures { result ≡ [] }
    {
        KeyTable {
            keys: IndexSet::new(alloc),
            entries: Vec::new(alloc),
        }
    }

    /// Puts the place under the key, at its end, unless it is there already. A new key stands
    /// last. For want of memory the table stays as it was.
    pub fn add(&mut self, key: &Atom, place: u64) -> Result<(), AllocError>
        ensures ok { OnOk result (self.new ≡ with_place self.old key.now place) }
        ensures err { OnErr result (self.new ≡ self.old) }
    {
        match self.find(key)? {
            Some(index) => {
                push_once(&mut self.entries[index].places, place)?;
                Ok(())
            }
            None => self.add_entry(key, place),
        }
    }

    /// The places under the key; none where the key is not there.
    pub fn places(&self, key: &Atom) -> Result<&[u64], AllocError>
        ensures { IfOk result (λ places. places.now ≡ places_of self.now key.now) }
    {
        match self.find(key)? {
            Some(index) => Ok(self.entries[index].places.as_slice()),
            None => Ok(&[]),
        }
    }

    /// The index of the entry of the key.
    fn find(&self, key: &Atom) -> Result<Option<usize>, AllocError>
        ensures { IfOk result (λ found. found ≡ index_of self.now key.now) }
    {
        let key = AtomKey::of(key)?;
        Ok(self.keys.get_index_of(&key))
    }

    /// Puts a new key at the end. Where the table of keys has no room for it the entry goes again.
    fn add_entry(&mut self, key: &Atom, place: u64) -> Result<(), AllocError>
        requires { index_of self.old key.now ≡ None }
        ensures ok { OnOk result (self.new ≡ with_place self.old key.now place) }
        ensures err { OnErr result (self.new ≡ self.old) }
    {
        let entry = entry_of(*self.entries.allocator(), key, place)?;
        self.entries.push(entry)?;
        match insert_key(&mut self.keys, key) {
            Ok(()) => Ok(()),
            Err(e) => {
                forget_last(&mut self.entries);
                Err(e)
            }
        }
    }

    /// The entries.
    pub fn into_entries(self) -> Vec<KeyEntry>
        ensures { result.items ≡ self }
    {
        self.entries
    }
}

fn entry_of(alloc: Global, key: &Atom, place: u64) -> Result<KeyEntry, AllocError>
    ensures { IfOk result (λ entry. entry ≡ first_entry key.now place) }
{
    let mut places = List::new(alloc);
    places.push(place)?;
    let key = key.copy()?;
    Ok(KeyEntry { key, places })
}

fn forget_last(entries: &mut Vec<KeyEntry>)
    ensures { entries.new.items ≡ take (length entries.old.items - 1) entries.old.items }
{
    let _entry = entries.pop();
}

fn insert_key(keys: &mut IndexSet<AtomKey>, key: &Atom) -> Result<(), AllocError>
    ensures ok { OnOk result (keys.new.keys
        ≡ insert_key ⟦<AtomKey as PartialEq>⟧.eq keys.old.keys (key_of key.now)) }
    ensures err { OnErr result (keys.new.keys ≡ keys.old.keys) }
{
    let key = AtomKey::of(key)?;
    keys.insert(key)?;
    Ok(())
}

#[tactic(auto, unfolding(crate::specs::AtomKeys::Tables::joined))]
fn push_once(places: &mut List<u64>, place: u64) -> Result<(), AllocError>
    ensures ok { OnOk result (places.new ≡ joined places.old place) }
    ensures err { OnErr result (places.new ≡ places.old) }
{
    if ends_in(places.as_slice(), place) {
        Ok(())
    } else {
        places.push(place)
    }
}

fn ends_in(places: &[u64], place: u64) -> bool
    ensures { result ≡ ends_in places.now place }
{
    match places {
        [.., last] => *last == place,
        [] => false,
    }
}

// Sequences of items.
ghost use Rattle.std.specs.Prelude.{◌≡◌, ◌==◌, ◌++◌, ◌∷◌, [], IfOk, OnErr, OnOk, length};
ghost use Rattle.xdm_items.specs.Lists.{held_items};

use crate::items::Item;
use std::alloc::{AllocError, Global};
use std::marker::Model;
use std::slice;

/// A sequence of items (XDM, 2.5), which grows at its end; contracts see the list of its items. One
/// item is in it without a place of its own in memory, since most sequences have one.
#[derive(Drop)]
pub struct ItemList {
    alloc: Global,
    held: HeldItems,
}

/// What a sequence holds: no item, one, or a vector of any number (XDM, 2.5).
#[derive(Drop)]
pub enum HeldItems {
    Empty,
    One(Item),
    Many(Vec<Item>),
}

impl Model for ItemList {
    ghost use Rattle.std.specs.Prelude.{List};
    ghost use Rattle.std.specs.Coded.{codes};
    ghost use Rattle.xdm_items.specs.Lists.{held_items};
    ghost use Rattle.xdm_items.specs.declared.items.Item.{Item};
    ghost use Rattle.node_tests.specs.XtTree.Forest.{forest_code};

    ghost Value = { List Item };

    ghost coded = { Prim.hlevel (codes, forest_code) };

    ghost view = { λ l. held_items l.held };
}

impl ItemList {
    /// The empty sequence. It takes no memory.
    pub fn new(alloc: Global) -> ItemList
        ensures { result ≡ [] }
    {
        ItemList {
            alloc,
            held: HeldItems::Empty,
        }
    }

    /// The sequence of the item. It takes no memory.
    pub fn one(alloc: Global, item: Item) -> ItemList
        ensures { result ≡ item ∷ [] }
    {
        ItemList {
            alloc,
            held: HeldItems::One(item),
        }
    }

    /// The sequence of the same items. It takes no memory.
    pub fn of_vec(items: Vec<Item>) -> ItemList
        ensures { result ≡ items.items }
    {
        ItemList {
            alloc: *items.allocator(),
            held: HeldItems::Many(items),
        }
    }

    /// The same items. Memory is taken only for a single one.
    pub fn into_vec(self) -> Result<Vec<Item>, AllocError>
        ensures { IfOk result (λ items. items.items ≡ self) }
    {
        let ItemList { alloc, held } = self;
        match held {
            HeldItems::Empty => Ok(Vec::new(alloc)),
            HeldItems::One(item) => {
                let mut items = Vec::new(alloc);
                items.push(item)?;
                Ok(items)
            }
            HeldItems::Many(items) => Ok(items),
        }
    }

    /// What it holds. It takes no memory.
    pub fn into_held(self) -> HeldItems
        ensures { held_items result ≡ self }
    {
        self.held
    }

    /// The items in order.
    pub fn as_slice(&self) -> &[Item]
        ensures { result.now ≡ self.now }
    {
        match &self.held {
            HeldItems::Empty => &[],
            HeldItems::One(item) => slice::from_ref(item),
            HeldItems::Many(items) => items.as_slice(),
        }
    }

    /// How many items there are.
    pub fn len(&self) -> usize
        ensures { result ≡ length self.now }
    {
        match &self.held {
            HeldItems::Empty => 0,
            HeldItems::One(_) => 1,
            HeldItems::Many(items) => items.len(),
        }
    }

    /// Whether there is no item.
    pub fn is_empty(&self) -> bool
        ensures { result ≡ (length self.now == 0) }
    {
        self.len() == 0
    }

    /// Puts an item at the end. Where memory runs out the sequence stays as it was.
    pub fn push(&mut self, item: Item) -> Result<(), AllocError>
        ensures ok { OnOk result (self.new ≡ self.old ++ item ∷ []) }
        ensures err { OnErr result (self.new ≡ self.old) }
    {
        let alloc = self.alloc;
        let held = match &mut self.held {
            HeldItems::Empty => HeldItems::One(item),
            HeldItems::One(first) => HeldItems::Many(pair(alloc, first, item)?),
            HeldItems::Many(items) => {
                items.push(item)?;
                return Ok(());
            }
        };
        self.held = held;
        Ok(())
    }

    /// The items of this sequence and those of the other after them (XPath 2.0, 3.3.1).
    pub fn joined(self, more: ItemList) -> Result<ItemList, AllocError>
        ensures { IfOk result (λ both. both ≡ self ++ more) }
    {
        if self.is_empty() {
            return Ok(more);
        }
        let mut both = self;
        match more.held {
            HeldItems::Empty => Ok(both),
            HeldItems::One(item) => {
                both.push(item)?;
                Ok(both)
            }
            HeldItems::Many(mut items) => {
                let mut all = both.into_vec()?;
                all.append(&mut items)?;
                Ok(ItemList::of_vec(all))
            }
        }
    }
}

fn pair(alloc: Global, first: &Item, second: Item) -> Result<Vec<Item>, AllocError>
    ensures { IfOk result (λ both. both.items ≡ first.now ∷ second ∷ []) }
{
    let mut both = Vec::new(alloc);
    both.push(first.copy()?)?;
    both.push(second)?;
    Ok(both)
}

/// The list of the same items.
pub fn copy_item_list(items: &ItemList) -> Result<ItemList, AllocError>
    ensures { IfOk result (λ copy. copy ≡ items.now) }
{
    match &items.held {
        HeldItems::Empty => Ok(ItemList::new(items.alloc)),
        HeldItems::One(item) => Ok(ItemList::one(items.alloc, item.copy()?)),
        HeldItems::Many(all) => Ok(ItemList::of_vec(copied(items.alloc, all.as_slice())?)),
    }
}

/// The same items. Room is taken for all of them at once.
fn copied(alloc: Global, items: &[Item]) -> Result<Vec<Item>, AllocError>
    ensures { IfOk result (λ copy. copy.items ≡ items.now) }
{
    let mut copy = Vec::with_capacity(alloc, items.len())?;
    for item in items {
        copy.push(item.copy()?)?;
    }
    Ok(copy)
}

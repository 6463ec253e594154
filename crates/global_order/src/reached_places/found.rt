// Places in the order in which they are found.
ghost use Rattle.std.specs.Prelude.{◌≡◌, [], slice_get, OnOk, OnErr};
ghost use Rattle.global_order.specs.ReachedPlaces.Walks.{has, with_place};

use indexmap::IndexSet;
use std::alloc::{AllocError, Global};
use std::marker::Model;

/// Places, each once; contracts see the list of them in the order in which they were added.
#[derive(Drop)]
pub struct Found {
    places: IndexSet<usize>,
}

impl Model for Found {
    ghost use Rattle.std.specs.Prelude.{List, ℕ};

    ghost Value = { List ℕ };

    ghost view = { λ f. f.places.keys };
}

impl Found {
    /// No places. It takes no memory.
    pub(crate) fn new(alloc: Global) -> Found
        ensures { result ≡ [] }
    {
        Found {
            places: IndexSet::new(alloc),
        }
    }

    /// Puts the place at the end, unless it is there. For want of memory nothing changes.
    pub(crate) fn add(&mut self, place: usize) -> Result<(), AllocError>
        ensures ok { OnOk result (self.new ≡ with_place self.old place) }
        ensures err { OnErr result (self.new ≡ self.old) }
    {
        let (_, _) = self.places.insert_full(place)?;
        Ok(())
    }

    /// The places in order.
    pub fn as_slice(&self) -> &[usize]
        ensures { result.now ≡ self.now }
    {
        self.places.as_slice()
    }

    /// Whether the place is one of them.
    pub fn has(&self, place: usize) -> bool
        ensures { result ≡ has self.now place }
    {
        self.places.contains(&place)
    }

    /// The one at this index, from 0.
    pub(crate) fn at(&self, index: usize) -> Option<usize>
        ensures { result ≡ slice_get self.now index }
    {
        self.places.get_index(index).copied()
    }
}

// The integers of a range.
ghost use Rattle.std.specs.Prelude.{◌≡◌, ◌++◌, ◌<◌, ◌^◌, length, slice_get, is_some};
ghost use Rattle.std.specs.Prelude.{option_map, pos};
ghost use Rattle.std.specs.Option.{option_to_list, SomeIff};
ghost use Rattle.node_walks.specs.Moves.{has_item};
ghost use Rattle.lazy_seq.specs.Integers.{integers, as_item};

use std::marker::Model;
use xdm_items::Item;
use xt_atoms::Atom;

/// The integers from the first to the last, both included; none where the last is smaller.
#[derive(Drop)]
pub(crate) struct Integers {
    from: i64,
    to: i64,
}

impl Model for Integers {
    ghost use Rattle.std.specs.Prelude.{List};
    ghost use Rattle.xdm_items.specs.declared.items.Item.{Item};
    ghost use Rattle.std.specs.Coded.{codes};
    ghost use Rattle.xt_tree.specs.Forest.{forest_code};

    ghost Value = { List Item };

    ghost coded = { Prim.hlevel (codes, forest_code) };

    ghost use Rattle.lazy_seq.specs.Integers.{integers};

    ghost view = { λ r. integers r.from r.to };
}

impl Integers {
    pub(crate) fn new(from: i64, to: i64) -> Integers
        ensures { result ≡ integers from to }
    {
        Integers { from, to }
    }

    /// Takes the first integer out.
    pub(crate) fn next(&mut self) -> Option<i64>
        ensures rest { self.old ≡ option_to_list (option_map as_item result) ++ self.new }
        ensures some { is_some result ≡ has_item self.old }
    {
        let first = self.first();
        if self.from < self.to {
            self.from += 1;
        } else {
            self.from = 1;
            self.to = 0;
        }
        first
    }

    pub(crate) fn first(&self) -> Option<i64>
        ensures item { option_map as_item result ≡ slice_get self.now 0 }
        ensures some { is_some result ≡ has_item self.now }
    {
        if self.to < self.from {
            return None;
        }
        Some(self.from)
    }

    /// Whether there is an integer.
    pub(crate) fn has_item(&self) -> bool
        ensures { result ≡ has_item self.now }
    {
        self.first().is_some()
    }

    pub(crate) fn first_item(&self) -> Option<Item>
        ensures { result ≡ slice_get self.now 0 }
    {
        match self.first() {
            Some(number) => Some(Item::Atom(Atom::Int(number))),
            None => None,
        }
    }

    pub(crate) fn item_at(&self, place: u64) -> Option<Item>
        ensures { result ≡ slice_get self.now place }
    {
        match self.at(place) {
            Some(number) => Some(Item::Atom(Atom::Int(number))),
            None => None,
        }
    }

    pub(crate) fn next_item(&mut self) -> Option<Item>
        ensures rest { self.old ≡ option_to_list result ++ self.new }
        ensures some { is_some result ≡ has_item self.old }
    {
        match self.next() {
            Some(number) => Some(Item::Atom(Atom::Int(number))),
            None => None,
        }
    }

    /// How many integers there are; None exactly past 2^63-1. It takes no walk.
    pub(crate) fn len(&self) -> Option<i64>
        ensures { SomeIff result (length self.now < 2 ^ 63) (pos (length self.now)) }
    {
        if self.to < self.from {
            return Some(0);
        }
        match self.to.checked_sub(self.from) {
            Some(more) => more.checked_add(1),
            None => None,
        }
    }

    /// The same, without a sign.
    pub(crate) fn count(&self) -> Option<u64>
        ensures { SomeIff result (length self.now < 2 ^ 63) (length self.now) }
    {
        match self.len() {
            Some(count) => Some(count.unsigned_abs()),
            None => None,
        }
    }

    /// The integer at the place, from 0. It takes no walk.
    pub(crate) fn at(&self, place: u64) -> Option<i64>
        ensures { option_map as_item result ≡ slice_get self.now place }
    {
        let last = self.to;
        match self.from.checked_add_unsigned(place) {
            Some(here) if here <= last => Some(here),
            _ => None,
        }
    }

    pub(crate) fn copy(&self) -> Integers
        ensures { result ≡ self.now }
    {
        Integers {
            from: self.from,
            to: self.to,
        }
    }
}

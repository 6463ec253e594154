// A sequence that is no concatenation.
ghost use Rattle.std.specs.Prelude.{◌≡◌, ◌++◌, ◌+◌, ◌≤◌, ◌<◌, ◌^◌, IfOk, OnErr};
ghost use Rattle.std.specs.Prelude.{length, slice_get, is_some};
ghost use Rattle.std.specs.Option.{SomeIff};
ghost use Rattle.node_walks.specs.Moves.{given, steps_before, all_steps, settled, has_item, giving};
ghost use Rattle.lazy_seq.specs.Leaves.{leaf_moves};

use crate::integers::Integers;
use crate::shares::SharedStock;
use crate::stocks::Stock;
use node_walks::Walk;
use node_walks::node_axes::Steps;
use std::alloc::{AllocError, Global};
use std::sync::ledger::Ledger;
use xdm_items::Item;
use xt_atoms::Atom;

/// Items that are held, integers of a range, or what a walk along an axis gives. A walk is large, so
/// that it comes after a pointer: sequences are handed on by value.
#[derive(Drop)]
pub(crate) enum Leaf {
    Stock(Stock),
    Shared(SharedStock),
    Integers(Integers),
    Walk(Box<Walk>),
}

impl Leaf {
    pub(crate) fn of_walk(alloc: Global, walk: Walk) -> Result<Leaf, AllocError>
        ensures { IfOk result (λ leaf. leaf_moves leaf ≡ walk) }
    {
        Ok(Leaf::Walk(Box::new(alloc, walk)?))
    }

    /// Whether there is an item; a walk goes to it.
    #[tactic(auto, using(crate::proofs::MoveLemmas::given_all, crate::proofs::MoveLemmas::settled_all))]
    pub(crate) fn settle<L: Ledger>(&mut self, steps: &mut Steps<L>) -> Result<bool, AllocError>
        ensures rest { settled (leaf_moves self.new) ≡ settled (leaf_moves self.old) }
        ensures some { IfOk result (λ some. some ≡ has_item (given (leaf_moves self.old))) }
        ensures stands { IfOk result (λ some. leaf_moves self.new ≡ settled (leaf_moves self.old)) }
        ensures steps { steps.new + steps_before (leaf_moves self.new)
            ≡ steps.old + steps_before (leaf_moves self.old) }
        ensures on { steps.old ≤ steps.new }
    {
        match self {
            Leaf::Stock(stock) => Ok(stock.has_item()),
            Leaf::Shared(stock) => Ok(stock.has_item()),
            Leaf::Integers(integers) => Ok(integers.has_item()),
            Leaf::Walk(walk) => walk.settle(steps),
        }
    }

    #[tactic(auto, using(crate::proofs::MoveLemmas::given_all))]
    pub(crate) fn first<L: Ledger>(
        &mut self,
        steps: &mut Steps<L>,
    ) -> Result<Option<Item>, AllocError>
        ensures rest { settled (leaf_moves self.new) ≡ settled (leaf_moves self.old) }
        ensures first { IfOk result (λ item. item ≡ slice_get (given (leaf_moves self.old)) 0) }
        ensures steps { steps.new + steps_before (leaf_moves self.new)
            ≡ steps.old + steps_before (leaf_moves self.old) }
        ensures on { steps.old ≤ steps.new }
    {
        match self {
            Leaf::Stock(stock) => stock.at(0),
            Leaf::Shared(stock) => stock.at(0),
            Leaf::Integers(integers) => Ok(integers.first_item()),
            Leaf::Walk(walk) => walk.first(steps),
        }
    }

    #[tactic(auto, using(crate::proofs::MoveLemmas::given_all, crate::proofs::MoveLemmas::no_steps_in_all))]
    pub(crate) fn next<L: Ledger>(
        &mut self,
        steps: &mut Steps<L>,
    ) -> Result<Option<Item>, AllocError>
        ensures after { let before = settled (leaf_moves self.old) in
            IfOk result (λ item. before ≡ giving item ++ leaf_moves self.new) }
        ensures some { let before = given (leaf_moves self.old) in
            IfOk result (λ item. is_some item ≡ has_item before) }
        ensures err { OnErr result (settled (leaf_moves self.new) ≡ settled (leaf_moves self.old)) }
        ensures steps { steps.new ≤ steps.old + steps_before (leaf_moves self.old) }
        ensures all { steps.new + all_steps (leaf_moves self.new)
            ≡ steps.old + all_steps (leaf_moves self.old) }
    {
        match self {
            Leaf::Stock(stock) => Ok(stock.next()),
            Leaf::Shared(stock) => stock.next(),
            Leaf::Integers(integers) => Ok(integers.next_item()),
            Leaf::Walk(walk) => walk.next(steps),
        }
    }

    /// How many items there are; None exactly past 2^63-1.
    #[tactic(auto, using(crate::proofs::MoveLemmas::given_all))]
    pub(crate) fn count(&self) -> Result<Option<u64>, AllocError>
        ensures { let n = length (given (leaf_moves self.now)) in
            IfOk result (λ count. SomeIff count (n < 2 ^ 63) n) }
    {
        match self {
            Leaf::Stock(stock) => Ok(stock.count()),
            Leaf::Shared(stock) => Ok(stock.count()),
            Leaf::Integers(integers) => Ok(integers.count()),
            Leaf::Walk(walk) => walk.count(),
        }
    }

    /// The item at the place, from 0.
    #[tactic(auto, using(crate::proofs::MoveLemmas::given_all))]
    pub(crate) fn at(&self, place: u64) -> Result<Option<Item>, AllocError>
        ensures { IfOk result (λ item. item ≡ slice_get (given (leaf_moves self.now)) place) }
    {
        match self {
            Leaf::Stock(stock) => stock.at(place as usize),
            Leaf::Shared(stock) => stock.at(place as usize),
            Leaf::Integers(integers) => Ok(integers.item_at(place)),
            Leaf::Walk(walk) => walk.at(place),
        }
    }

    pub(crate) fn copy(&self) -> Result<Leaf, AllocError>
        ensures { IfOk result (λ leaf. leaf_moves leaf ≡ leaf_moves self.now) }
    {
        match self {
            Leaf::Stock(stock) => Ok(Leaf::Stock(stock.copy()?)),
            Leaf::Shared(stock) => Ok(Leaf::Shared(stock.copy()?)),
            Leaf::Integers(integers) => Ok(Leaf::Integers(integers.copy())),
            Leaf::Walk(walk) => Leaf::of_walk(*Box::allocator(walk), walk.copy()?),
        }
    }
}

// Walks along axes, plain or filtered.
ghost use Rattle.std.specs.Prelude.{◌≡◌, ◌++◌, ◌+◌, ◌≤◌, ◌<◌, ◌^◌, IfOk, OnErr, length, is_some};
ghost use Rattle.std.specs.Prelude.{slice_get, map, replicate, Ok, true};
ghost use Rattle.std.specs.Option.{option_map, option_to_list, SomeIff};
ghost use Rattle.xdm_items.specs.declared.items.Item.TheVariants.{Node as a_node};
ghost use Rattle.quiet_eval.specs.QuietMeaning.Paths.{are_allowed, keeps};
ghost use Rattle.quiet_eval.specs.QuietPlaces.Free.{is_size_free_expr};
ghost use Rattle.std.specs.List.{list_all};
ghost use Rattle.node_axes.specs.StepWalks.Hits.{hits_ahead};
ghost use Rattle.node_axes.specs.StepWalks.Nodes.{kept_by_all};
ghost use Rattle.node_walks.specs.Courses.{moves_to_come};
ghost use Rattle.node_walks.specs.Sift.{sifted_moves};
ghost use Rattle.node_walks.specs.Trails.{trail_moves, is_ready};
ghost use Rattle.node_walks.specs.Moves.{given, steps_before, all_steps, has_item, giving};
ghost use Rattle.node_walks.specs.Moves.{settled, standing, passed};

use crate::axis_walks::AxisWalk;
use crate::quiet_walks::QuietWalk;
use node_axes::{Cursor, Steps};
use std::alloc::{AllocError, Global};
use std::marker::{Brand, Model};
use std::sync::ledger::{Blank, Ledger};
use xdm_items::Item;
use xt_names::List;
use xt_syntax::Expr;
use xt_tree::Node;

/// Either kind of walk.
#[derive(Drop)]
pub(crate) enum Trail {
    Axis(AxisWalk),
    Quiet(QuietWalk),
}

impl Trail {
    fn settle<L: Ledger>(&mut self, steps: &mut Steps<L>) -> Result<bool, AllocError>
        ensures stands { IfOk result (λ found. trail_moves self.new ≡ settled (trail_moves self.old)) }
        ensures found { IfOk result (λ found. found ≡ is_some (standing (trail_moves self.new))) }
        ensures ready { result ≡ Ok true → is_ready self.new ≡ true }
        ensures rest { settled (trail_moves self.new) ≡ settled (trail_moves self.old) }
        ensures steps { steps.new + steps_before (trail_moves self.new)
            ≡ steps.old + steps_before (trail_moves self.old) }
        ensures on { steps.old ≤ steps.new }
    {
        match self {
            Trail::Axis(walk) => Ok(walk.settle(steps)),
            Trail::Quiet(walk) => walk.settle(steps),
        }
    }

    fn node(&self) -> Result<Option<Node>, AllocError>
        requires { is_ready self.now ≡ true }
        ensures { IfOk result (λ node. option_map a_node node ≡ standing (trail_moves self.now)) }
    {
        match self {
            Trail::Axis(walk) => walk.node(),
            Trail::Quiet(walk) => walk.node(),
        }
    }

    fn pass(&mut self)
        requires { is_ready self.old ≡ true }
        ensures { trail_moves self.new ≡ passed (trail_moves self.old) }
    {
        match self {
            Trail::Axis(walk) => walk.pass(),
            Trail::Quiet(walk) => walk.pass(),
        }
    }

    fn copy(&self) -> Result<Trail, AllocError>
        ensures { IfOk result (λ trail. trail_moves trail ≡ trail_moves self.now) }
    {
        match self {
            Trail::Axis(walk) => Ok(Trail::Axis(walk.copy()?)),
            Trail::Quiet(walk) => Ok(Trail::Quiet(walk.copy()?)),
        }
    }
}

/// A walk along an axis that gives nodes as items (XPath 2.0, 3.2). Contracts see its moves.
#[derive(Drop)]
pub struct Walk {
    trail: Trail,
}

impl Model for Walk {
    ghost use Rattle.std.specs.Coded.{codes};
    ghost use Rattle.xt_tree.specs.Forest.{forest_code};
    ghost use Rattle.node_walks.specs.Moves.{Moves};
    ghost use Rattle.node_walks.specs.Trails.{trail_moves};

    ghost Value = { Moves };

    ghost coded = { Prim.hlevel (codes, forest_code) };

    ghost view = { λ w. trail_moves w.trail };
}

impl Walk {
    /// The nodes that the cursor has not reached yet and that pass its test, in the order of the
    /// axis. It takes no memory and no step.
    pub fn of_cursor(cursor: Cursor) -> Walk
        ensures { result ≡ moves_to_come cursor }
    {
        Walk {
            trail: Trail::Axis(AxisWalk::new(cursor)),
        }
    }

    /// The nodes among these that the predicates keep in turn, where each of them counts positions
    /// in the list that it gets (XPath 2.0, 3.2.2). It takes no step. A predicate is asked when its
    /// node is reached, so it must not look at how many nodes there are, as last() does.
    pub fn of_quiet(alloc: Global, cursor: Cursor, tests: List<Expr>) -> Result<Walk, AllocError>
        requires { are_allowed tests ≡ true }
        ensures moves { let none = replicate (length tests) 0 in
            let moves = sifted_moves (keeps tests) none (moves_to_come cursor) in
            IfOk result (λ walk. walk ≡ moves) }
        ensures items { list_all is_size_free_expr tests ≡ true →
            let kept = kept_by_all (keeps tests) (hits_ahead cursor) in
            IfOk result (λ walk. given walk ≡ map a_node kept) }
    {
        let walk = QuietWalk::new(alloc, cursor, tests)?;
        Ok(Walk {
            trail: Trail::Quiet(walk),
        })
    }

    /// Goes to the first item, which stays to be given; false exactly where there is none. Where
    /// memory runs out the walk still gives the same items.
    pub fn settle<L: Ledger>(&mut self, steps: &mut Steps<L>) -> Result<bool, AllocError>
        ensures rest { settled self.new ≡ settled self.old }
        ensures some { IfOk result (λ some. some ≡ has_item (given self.old)) }
        ensures stands { IfOk result (λ some. self.new ≡ settled self.old) }
        ensures steps { steps.new + steps_before self.new ≡ steps.old + steps_before self.old }
        ensures on { steps.old ≤ steps.new }
    {
        self.trail.settle(steps)
    }

    /// The first item; the walk still gives it, also where memory runs out.
    pub fn first<L: Ledger>(&mut self, steps: &mut Steps<L>) -> Result<Option<Item>, AllocError>
        ensures rest { settled self.new ≡ settled self.old }
        ensures first { IfOk result (λ item. item ≡ slice_get (given self.old) 0) }
        ensures steps { steps.new + steps_before self.new ≡ steps.old + steps_before self.old }
        ensures on { steps.old ≤ steps.new }
    {
        if !self.trail.settle(steps)? {
            return Ok(None);
        }
        let node = self.trail.node()?;
        Ok(item_of(node))
    }

    /// Takes the first item out; None exactly where there is none. What is left then is what comes
    /// after it. Where memory runs out the walk still gives the same items.
    pub fn next<L: Ledger>(&mut self, steps: &mut Steps<L>) -> Result<Option<Item>, AllocError>
        ensures after { IfOk result (λ item. settled self.old ≡ giving item ++ self.new) }
        ensures some { IfOk result (λ item. is_some item ≡ has_item (given self.old)) }
        ensures err { OnErr result (settled self.new ≡ settled self.old) }
        ensures steps { steps.new ≤ steps.old + steps_before self.old }
        ensures all { steps.new + all_steps self.new ≡ steps.old + all_steps self.old }
    {
        if !self.trail.settle(steps)? {
            return Ok(None);
        }
        let node = self.trail.node()?;
        self.trail.pass();
        Ok(item_of(node))
    }

    /// Takes the first item out without making its node; false where there is none.
    fn skip<L: Ledger>(&mut self, steps: &mut Steps<L>) -> Result<bool, AllocError>
        ensures rest { IfOk result (λ some. self.new ≡ passed (settled self.old)) }
        ensures some { IfOk result (λ some. some ≡ has_item (given self.old)) }
    {
        if !self.trail.settle(steps)? {
            return Ok(false);
        }
        self.trail.pass();
        Ok(true)
    }

    /// How many items there are; None exactly past 2^63-1. The walk stays where it is.
    pub fn count(&self) -> Result<Option<u64>, AllocError>
        ensures { let n = length (given self.now) in
            IfOk result (λ count. SomeIff count (n < 2 ^ 63) n) }
    {
        let mut walk = self.copy()?;
        count_items::<Brand>(Blank::new(1), &mut walk)
    }

    /// The item at the place, from 0. The walk stays where it is.
    pub fn at(&self, place: u64) -> Result<Option<Item>, AllocError>
        ensures { IfOk result (λ item. item ≡ slice_get (given self.now) place) }
    {
        let mut walk = self.copy()?;
        seek_item::<Brand>(Blank::new(1), &mut walk, place)
    }

    /// The same walk at the same place.
    pub fn copy(&self) -> Result<Walk, AllocError>
        ensures { IfOk result (λ walk. walk ≡ self.now) }
    {
        Ok(Walk {
            trail: self.trail.copy()?,
        })
    }
}

fn item_of(node: Option<Node>) -> Option<Item>
    ensures { result ≡ option_map a_node node }
{
    match node {
        Some(node) => Some(Item::Node(node)),
        None => None,
    }
}

fn count_items<L: Ledger>(blank: Blank, walk: &mut Walk) -> Result<Option<u64>, AllocError>
    requires name { blank.name ≡ L.name }
    requires parts { blank.parts ≡ L.parts }
    requires one { 0 < blank.parts }
    ensures { let n = length (given walk.old) in
        IfOk result (λ count. SomeIff count (n < 2 ^ 63) n) }
{
    let mut steps = Steps::<L>::begin(blank);
    let mut count: u64 = 0;
    while walk.skip(&mut steps)? {
        if count == 0x7FFF_FFFF_FFFF_FFFF {
            return Ok(None);
        }
        count += 1;
    }
    Ok(Some(count))
}

fn seek_item<L: Ledger>(
    blank: Blank,
    walk: &mut Walk,
    place: u64,
) -> Result<Option<Item>, AllocError>
    requires name { blank.name ≡ L.name }
    requires parts { blank.parts ≡ L.parts }
    requires one { 0 < blank.parts }
    ensures { IfOk result (λ item. item ≡ slice_get (given walk.old) place) }
{
    let mut steps = Steps::<L>::begin(blank);
    let mut left = place;
    while left > 0 {
        if !walk.skip(&mut steps)? {
            return Ok(None);
        }
        left -= 1;
    }
    let item = walk.first(&mut steps)?;
    Ok(item)
}

// Sequences that are walked on demand.
ghost use Rattle.std.specs.Prelude.{◌≡◌, ◌++◌, ◌+◌, ◌≤◌, ◌<◌, ◌^◌, IfOk, OnErr, Ok, true, false};
ghost use Rattle.std.specs.Prelude.{[], length, slice_get, is_some, not, pos, map, replicate};
ghost use Rattle.std.specs.List.{flat_map, list_all, sum_by};
ghost use Rattle.std.specs.Option.{option_to_list, SomeIff};
ghost use Rattle.node_walks.specs.NodeAxes.Course.{to_come};
ghost use Rattle.node_walks.specs.NodeAxes.StepWalks.Hits.{hits_ahead, steps_ahead};
ghost use Rattle.node_walks.specs.NodeAxes.StepWalks.Nodes.{kept_by_all};
ghost use Rattle.node_walks.specs.QuietMeaning.Paths.{are_allowed, keeps};
ghost use Rattle.node_walks.specs.QuietEval.QuietPlaces.Free.{is_size_free_expr};
ghost use Rattle.xdm_items.specs.declared.items.Item.TheVariants.{Node as a_node};
ghost use Rattle.node_walks.specs.Courses.{moves_to_come};
ghost use Rattle.node_walks.specs.Moves.{given, steps_before, all_steps, settled, has_item, giving};
ghost use Rattle.node_walks.specs.Sift.{sifted_moves};
ghost use Rattle.lazy_seq.specs.Flow.{giving_all, item_at};
ghost use Rattle.lazy_seq.specs.Integers.{integers};
ghost use Rattle.lazy_seq.specs.Looks.{Looks};
ghost use Rattle.lazy_seq.specs.Orders.{in_document_order};
ghost use Rattle.lazy_seq.specs.Stacks.{parts_flow};

use crate::integers::Integers;
use crate::leaves::Leaf;
use crate::orders::in_order;
use crate::parts::{at_parts, copy_parts, count_parts};
use crate::shares::SharedStock;
use crate::stacks::{Top, bring_up, first_of_parts, next_of_parts};
use crate::stocks::Stock;
use node_walks::node_axes::{Cursor, Steps};
use node_walks::quiet_eval::quiet_places::is_size_free;
use node_walks::{Walk, kept_hits};
use std::alloc::{AllocError, Global};
use std::marker::{Brand, Model};
use std::mem;
use std::sync::ledger::{Blank, Ledger};
use xdm_items::{Item, ItemList};
use xt_names::List;
use xt_syntax::Expr;

/// A sequence (XPath 2.0, 2) that is walked on demand. Contracts see its moves, which are the steps
/// along axes that it still takes and between them the items that it gives, and its weight, which
/// falls with each part that is put away and which no caller needs.
#[derive(Drop)]
#[cycle(seq)]
pub struct Seq {
    pub(crate) shape: Shape,
}

#[derive(Drop)]
#[cycle(seq)]
pub(crate) enum Shape {
    Leaf(Leaf),
    /// Sequences one after another, as a stack: the last of the vector is walked first.
    Parts(Vec<Seq>),
}

impl Model for Seq {
    ghost use Rattle.lazy_seq.specs.Flow.{Flow};
    ghost use Rattle.std.specs.Coded.{codes};
    ghost use Rattle.xt_tree.specs.Forest.{forest_code};

    ghost Value = { Flow };

    ghost coded = { Prim.hlevel (codes, forest_code) };

    ghost use Rattle.lazy_seq.specs.Shapes.{flow_of};

    ghost view = { λ s. flow_of s.shape };

    ghost size = { λ f. f.weight };

    ghost use Rattle.std.proofs.Common.{arith};
    ghost use Rattle.lazy_seq.specs.ShapesFall.{shapes_fall};

    ghost size_decreases = { λ a h. omega (arith, shapes_fall a.shape) };
}

impl Seq {
    /// The sequence of the items. It takes no memory.
    #[tactic(auto, using(crate::proofs::MoveLemmas::given_all))]
    pub fn of_list(items: ItemList) -> Seq
        ensures moves { result.moves ≡ giving_all items }
        ensures items { given result.moves ≡ items }
    {
        Seq {
            shape: Shape::Leaf(Leaf::Stock(Stock::new(items))),
        }
    }

    /// The integers from the first to the last, both included (XPath 2.0, 3.3.1). It takes no
    /// memory.
    #[tactic(auto, using(crate::proofs::MoveLemmas::given_all))]
    pub fn of_range(from: i64, to: i64) -> Seq
        ensures moves { result.moves ≡ giving_all (integers from to) }
        ensures items { given result.moves ≡ integers from to }
    {
        Seq {
            shape: Shape::Leaf(Leaf::Integers(Integers::new(from, to))),
        }
    }

    /// The nodes that the cursor has not reached yet and that pass its test, in the order of the
    /// axis (XPath 2.0, 3.2.1); the node at which it stands is not among them. It takes no step.
    #[tactic(auto, using(crate::proofs::CursorLemmas::cursor_items, crate::proofs::CursorLemmas::cursor_first, crate::proofs::CursorLemmas::cursor_whole))]
    pub fn of_cursor(alloc: Global, cursor: Cursor) -> Result<Seq, AllocError>
        ensures moves { IfOk result (λ seq. seq.moves ≡ moves_to_come cursor) }
        ensures items { IfOk result (λ seq. given seq.moves ≡ map a_node (hits_ahead cursor)) }
        ensures first { IfOk result (λ seq. steps_before seq.moves ≡ steps_ahead cursor) }
        ensures whole { IfOk result (λ seq. all_steps seq.moves ≡ length (to_come cursor) + 1) }
    {
        Ok(Seq {
            shape: Shape::Leaf(Leaf::of_walk(alloc, Walk::of_cursor(cursor))?),
        })
    }

    /// Those of the same nodes that the predicates keep in turn, where each of them counts
    /// positions in the list that it gets (XPath 2.0, 3.2.2). A predicate is asked when its node is
    /// reached; where one looks at how many nodes there are, as last() does, all are
    /// collected at once.
    pub fn of_quiet(alloc: Global, cursor: Cursor, quiet: List<Expr>) -> Result<Seq, AllocError>
        requires { are_allowed quiet ≡ true }
        ensures items { let kept = kept_by_all (keeps quiet) (hits_ahead cursor) in
            IfOk result (λ seq. given seq.moves ≡ map a_node kept) }
        ensures walked { list_all is_size_free_expr quiet ≡ true →
            let none = replicate (length quiet) 0 in
            let moves = sifted_moves (keeps quiet) none (moves_to_come cursor) in
            IfOk result (λ seq. seq.moves ≡ moves) }
        ensures collected { list_all is_size_free_expr quiet ≡ false →
            let kept = kept_by_all (keeps quiet) (hits_ahead cursor) in
            IfOk result (λ seq. seq.moves ≡ giving_all (map a_node kept)) }
    {
        if are_size_free(quiet.as_slice()) {
            let walk = Walk::of_quiet(alloc, cursor, quiet)?;
            return Ok(Seq {
                shape: Shape::Leaf(Leaf::of_walk(alloc, walk)?),
            });
        }
        let items = kept_hits(alloc, cursor, quiet.as_slice())?;
        Ok(Seq::of_list(items))
    }

    /// The parts one after another, as the comma has them (XPath 2.0, 3.3.1). It takes no memory. A
    /// walk takes linear time however deep concatenations nest; `copy`, `len`, `at` and a drop go
    /// down by calls, so that many parts are better put into one concatenation than into each
    /// other.
    pub fn concat(parts: List<Seq>) -> Seq
        ensures moves { result.moves ≡ flat_map (λ p. p.moves) parts }
        ensures items { given result.moves ≡ flat_map (λ p. given p.moves) parts }
        ensures whole { all_steps result.moves ≡ sum_by (λ p. all_steps p.moves) parts }
    {
        let mut parts = parts.into_vec();
        parts.reverse();
        Seq {
            shape: Shape::Parts(parts),
        }
    }

    /// The first item; the sequence still gives it, also where memory runs out. The steps that it
    /// takes are taken off those that come before the first item.
    pub fn first<L: Ledger>(&mut self, steps: &mut Steps<L>) -> Result<Option<Item>, AllocError>
        ensures rest { settled self.new.moves ≡ settled self.old.moves }
        ensures first { IfOk result (λ item. item ≡ slice_get (given self.old.moves) 0) }
        ensures steps { steps.new + steps_before self.new.moves
            ≡ steps.old + steps_before self.old.moves }
        ensures on { steps.old ≤ steps.new }
    {
        match &mut self.shape {
            Shape::Leaf(leaf) => leaf.first(steps),
            Shape::Parts(parts) => first_of_parts(parts, steps),
        }
    }

    /// Takes the first item out; None exactly where there is none. What is left then is what comes
    /// after it, and so a whole walk takes as many steps as there are moves. Where memory runs out
    /// the sequence still gives the same items.
    pub fn next<L: Ledger>(&mut self, steps: &mut Steps<L>) -> Result<Option<Item>, AllocError>
        ensures ok { let before = given self.old.moves in
            IfOk result (λ item. before ≡ option_to_list item ++ given self.new.moves) }
        ensures after { let before = settled self.old.moves in
            IfOk result (λ item. before ≡ giving item ++ self.new.moves) }
        ensures some { IfOk result (λ item. is_some item ≡ has_item (given self.old.moves)) }
        ensures err { OnErr result (settled self.new.moves ≡ settled self.old.moves) }
        ensures steps { steps.new ≤ steps.old + steps_before self.old.moves }
        ensures all { steps.new + all_steps self.new.moves ≡ steps.old + all_steps self.old.moves }
    {
        match &mut self.shape {
            Shape::Leaf(leaf) => leaf.next(steps),
            Shape::Parts(parts) => next_of_parts(parts, steps),
        }
    }

    /// Whether the sequence has no item; it still gives the same, also where memory runs out. The
    /// steps that it takes are taken off those that come before the first item.
    pub fn is_empty<L: Ledger>(&mut self, steps: &mut Steps<L>) -> Result<bool, AllocError>
        ensures rest { settled self.new.moves ≡ settled self.old.moves }
        ensures empty { IfOk result (λ empty. empty ≡ not (has_item (given self.old.moves))) }
        ensures steps { steps.new + steps_before self.new.moves
            ≡ steps.old + steps_before self.old.moves }
        ensures on { steps.old ≤ steps.new }
    {
        match &mut self.shape {
            Shape::Leaf(leaf) => Ok(!leaf.settle(steps)?),
            Shape::Parts(parts) => Ok(!bring_up(parts, steps)?),
        }
    }

    /// How many items there are; None exactly past 2^63-1. The sequence stays as it was, and a
    /// range is not walked.
    pub fn len(&mut self) -> Result<Option<i64>, AllocError>
        ensures same { self.new ≡ self.old }
        ensures count { let n = length (given self.old.moves) in
            IfOk result (λ count. SomeIff count (n < 2 ^ 63) (pos n)) }
    {
        match self.count()? {
            Some(count) => Ok(Some(count as i64)),
            None => Ok(None),
        }
    }

    /// The item at the place, which counts from 1 (XPath 2.0, 3.3.2); None where there is none. The
    /// sequence stays as it was, and a range is not walked.
    pub fn at(&mut self, place: i64) -> Result<Option<Item>, AllocError>
        ensures same { self.new ≡ self.old }
        ensures item { IfOk result (λ item. item ≡ item_at place (given self.old.moves)) }
    {
        if place < 1 {
            return Ok(None);
        }
        self.get(place as u64 - 1)
    }

    /// The item that so many stand before.
    fn get(&self, before: u64) -> Result<Option<Item>, AllocError>
        requires { before < 2 ^ 63 }
        ensures { IfOk result (λ item. item ≡ slice_get (given self.now.moves) before) }
    {
        match &self.shape {
            Shape::Leaf(leaf) => leaf.at(before),
            Shape::Parts(parts) => at_parts(parts.as_slice(), before),
        }
    }

    fn count(&self) -> Result<Option<u64>, AllocError>
        ensures { let n = length (given self.now.moves) in
            IfOk result (λ count. SomeIff count (n < 2 ^ 63) n) }
    {
        match &self.shape {
            Shape::Leaf(leaf) => leaf.count(),
            Shape::Parts(parts) => count_parts(parts.as_slice()),
        }
    }

    /// The same sequence, walked as far.
    pub fn copy(&self) -> Result<Seq, AllocError>
        ensures { IfOk result (λ seq. seq ≡ self.now) }
    {
        match &self.shape {
            Shape::Leaf(leaf) => Ok(Seq {
                shape: Shape::Leaf(leaf.copy()?),
            }),
            Shape::Parts(parts) => {
                let made = copy_parts(*parts.allocator(), parts.as_slice())?;
                Ok(Seq {
                    shape: Shape::Parts(made),
                })
            }
        }
    }

    /// All items.
    #[tactic(auto, using(crate::proofs::MoveLemmas::given_all))]
    pub fn to_list(self, alloc: Global) -> Result<ItemList, AllocError>
        ensures { IfOk result (λ items. items ≡ given self.moves) }
    {
        match self.shape {
            Shape::Leaf(Leaf::Stock(stock)) => Ok(stock.into_list(alloc)),
            shape => {
                let mut left = Seq { shape };
                collect::<Brand>(alloc, Blank::new(1), &mut left)
            }
        }
    }

    /// All items, which the sequence still gives (XPath 2.0, 2). Items that are held are copied once.
    #[tactic(auto, using(crate::proofs::MoveLemmas::given_all))]
    pub fn listed(&self, alloc: Global) -> Result<ItemList, AllocError>
        ensures { IfOk result (λ items. items ≡ given self.now.moves) }
    {
        match &self.shape {
            Shape::Leaf(Leaf::Stock(stock)) => stock.listed(alloc),
            _ => self.copy()?.to_list(alloc),
        }
    }

    /// The same items, held so that a copy of the sequence copies none of them. A range stays a
    /// range.
    pub fn share(self, alloc: Global) -> Result<Seq, AllocError>
        ensures { IfOk result (λ seq. seq.moves ≡ giving_all (given self.moves)) }
    {
        if self.is_range() {
            return Ok(self);
        }
        shared(alloc, self)
    }

    /// Whether the sequence is a range.
    #[tactic(auto, using(crate::proofs::MoveLemmas::given_all))]
    fn is_range(&self) -> bool
        ensures { result ≡ true → self.now.moves ≡ giving_all (given self.now.moves) }
    {
        matches!(&self.shape, Shape::Leaf(Leaf::Integers(_)))
    }

    /// The same nodes in document order, each once (XPath 2.0, 2.4.1). Nodes that come so already
    /// are not sorted again. Callers give nodes alone: atoms come before all nodes and count as
    /// one.
    pub fn in_document_order(self, alloc: Global) -> Result<Seq, AllocError>
        ensures moves { let items = in_document_order (given self.moves) in
            IfOk result (λ seq. seq.moves ≡ giving_all items) }
        ensures items { let items = in_document_order (given self.moves) in
            IfOk result (λ seq. given seq.moves ≡ items) }
    {
        let items = self.to_list(alloc)?;
        let nodes = in_order(items)?;
        Ok(Seq::of_list(nodes))
    }

    /// A look at the top of a stack: what is no stack goes to its first item, a stack is taken out.
    pub(crate) fn look<L: Ledger>(
        &mut self,
        alloc: Global,
        steps: &mut Steps<L>,
    ) -> Result<Top, AllocError>
        ensures looks { IfOk result (λ top. Looks top steps.old steps.new self.old self.new) }
        ensures err { OnErr result (settled self.new.moves ≡ settled self.old.moves) }
        ensures err_steps { OnErr result (steps.new + steps_before self.new.moves
            ≡ steps.old + steps_before self.old.moves) }
        ensures on { steps.old ≤ steps.new }
    {
        match &mut self.shape {
            Shape::Leaf(leaf) => {
                if leaf.settle(steps)? {
                    Ok(Top::Ready)
                } else {
                    Ok(Top::Nothing)
                }
            }
            Shape::Parts(parts) => {
                if parts.as_slice().is_empty() {
                    return Ok(Top::Nothing);
                }
                Ok(Top::Stack(mem::replace(parts, Vec::new(alloc))))
            }
        }
    }

    /// Puts a stack back.
    pub(crate) fn refill(&mut self, parts: Vec<Seq>)
        ensures { self.new ≡ parts_flow parts.items }
    {
        self.shape = Shape::Parts(parts);
    }

    /// The first item of a top that is no stack.
    pub(crate) fn first_of_top<L: Ledger>(
        &mut self,
        steps: &mut Steps<L>,
    ) -> Result<Option<Item>, AllocError>
        requires { self.old.weight ≡ 1 }
        ensures rest { settled self.new.moves ≡ settled self.old.moves }
        ensures first { IfOk result (λ item. item ≡ slice_get (given self.old.moves) 0) }
        ensures steps { steps.new + steps_before self.new.moves
            ≡ steps.old + steps_before self.old.moves }
        ensures on { steps.old ≤ steps.new }
    {
        match &mut self.shape {
            Shape::Leaf(leaf) => leaf.first(steps),
            Shape::Parts(_) => Ok(None),
        }
    }

    /// Takes the first item out of a top that is no stack.
    pub(crate) fn next_of_top<L: Ledger>(
        &mut self,
        steps: &mut Steps<L>,
    ) -> Result<Option<Item>, AllocError>
        requires { self.old.weight ≡ 1 }
        ensures after { let before = settled self.old.moves in
            IfOk result (λ item. before ≡ giving item ++ self.new.moves) }
        ensures some { IfOk result (λ item. is_some item ≡ has_item (given self.old.moves)) }
        ensures err { OnErr result (settled self.new.moves ≡ settled self.old.moves) }
        ensures steps { steps.new ≤ steps.old + steps_before self.old.moves }
        ensures all { steps.new + all_steps self.new.moves ≡ steps.old + all_steps self.old.moves }
    {
        match &mut self.shape {
            Shape::Leaf(leaf) => leaf.next(steps),
            Shape::Parts(_) => Ok(None),
        }
    }
}

/// The items that are left.
fn collect<L: Ledger>(alloc: Global, blank: Blank, left: &mut Seq) -> Result<ItemList, AllocError>
    requires name { blank.name ≡ L.name }
    requires parts { blank.parts ≡ L.parts }
    requires one { 0 < blank.parts }
    ensures { IfOk result (λ items. items ≡ given left.old.moves) }
{
    let mut steps = Steps::<L>::begin(blank);
    let mut items = ItemList::new(alloc);
    while take_first(left, &mut items, &mut steps)? {}
    Ok(items)
}

/// Takes the first item out to the end of the list; false where there is none.
fn take_first<L: Ledger>(
    left: &mut Seq,
    items: &mut ItemList,
    steps: &mut Steps<L>,
) -> Result<bool, AllocError>
    ensures kept { let before = items.old ++ given left.old.moves in
        IfOk result (λ more. items.new ++ given left.new.moves ≡ before) }
    ensures less { result ≡ Ok true →
        length (given left.new.moves) < length (given left.old.moves) }
    ensures end { result ≡ Ok false → given left.new.moves ≡ [] }
{
    match left.next(steps)? {
        Some(item) => {
            items.push(item)?;
            Ok(true)
        }
        None => Ok(false),
    }
}

fn shared(alloc: Global, seq: Seq) -> Result<Seq, AllocError>
    ensures { IfOk result (λ shared. shared.moves ≡ giving_all (given seq.moves)) }
{
    let items = seq.to_list(alloc)?;
    let stock = SharedStock::new(alloc, items)?;
    Ok(Seq {
        shape: Shape::Leaf(Leaf::Shared(stock)),
    })
}

/// Whether none of the predicates looks at how many nodes there are.
fn are_size_free(tests: &[Expr]) -> bool
    ensures { result ≡ list_all is_size_free_expr tests.now }
{
    tests.iter().all(|e| is_size_free(e))
}

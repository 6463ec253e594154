// The nodes on an axis that pass a test, of which the first may be looked at more than once.
ghost use Rattle.std.specs.Prelude.{◌≡◌, ◌+◌, ◌++◌, ◌≤◌, [], true, false, is_some, IfOk};
ghost use Rattle.std.specs.Option.{option_map};
ghost use Rattle.xdm_items.specs.declared.items.Item.TheVariants.{Node as a_node};
ghost use Rattle.node_walks.specs.Courses.{is_ahead, moves_to_come, present_moves, walk_moves};
ghost use Rattle.node_walks.specs.Moves.{settled, standing, passed, steps_before};
ghost use Rattle.node_walks.specs.declared.axis_walks.Stand.TheVariants.{Ahead};

use node_axes::{Cursor, Steps};
use std::alloc::AllocError;
use std::marker::Model;
use std::sync::ledger::Ledger;
use xt_tree::Node;

/// Where a walk stands: before its next step, on a node that is still to be given, or past the end.
#[derive(Clone, Copy)]
pub(crate) enum Stand {
    Before,
    Ahead,
    Ended,
}

/// A walk along an axis.
#[derive(Drop)]
pub(crate) struct AxisWalk {
    cursor: Cursor,
    stand: Stand,
}

impl Model for AxisWalk {
    ghost use Rattle.std.specs.Prelude.{◌≡◌, true, is_some};
    ghost use Rattle.std.specs.Coded.{codes};
    ghost use Rattle.xt_tree.specs.Forest.{forest_code};
    ghost use Rattle.node_walks.specs.Courses.{walk_moves};
    ghost use Rattle.node_walks.specs.Moves.{Moves};
    ghost use Rattle.node_walks.specs.declared.axis_walks.Stand.TheVariants.{Ahead};

    ghost Value = { Moves };

    ghost coded = { Prim.hlevel (codes, forest_code) };

    ghost view = { λ w. walk_moves w.stand w.cursor };

    ghost invariant = { λ w. w.stand ≡ Ahead → is_some w.cursor.present ≡ true };
}

impl AxisWalk {
    #[tactic(auto, unfolding(crate::specs::Courses::walk_moves))]
    pub(crate) fn new(cursor: Cursor) -> AxisWalk
        ensures { result ≡ moves_to_come cursor }
    {
        AxisWalk {
            cursor,
            stand: Stand::Before,
        }
    }

    /// Goes to the first item, which stays to be given; false exactly where there is none. It takes
    /// no memory.
    #[tactic(auto, using(crate::proofs::MoveLemmas::settled_twice, crate::proofs::MoveLemmas::no_steps_left))]
    pub(crate) fn settle<L: Ledger>(&mut self, steps: &mut Steps<L>) -> bool
        ensures moves { self.new ≡ settled self.old }
        ensures found { result ≡ is_some (standing self.new) }
        ensures rest { settled self.new ≡ settled self.old }
        ensures steps { steps.new + steps_before self.new ≡ steps.old + steps_before self.old }
        ensures on { steps.old ≤ steps.new }
    {
        self.stand = settle(&mut self.cursor, self.stand, steps);
        is_ahead(self.stand)
    }

    /// The node at which the walk stands.
    pub(crate) fn node(&self) -> Result<Option<Node>, AllocError>
        ensures { IfOk result (λ node. option_map a_node node ≡ standing self.now) }
    {
        match self.stand {
            Stand::Before => Ok(None),
            Stand::Ahead => self.cursor.node(),
            Stand::Ended => Ok(None),
        }
    }

    /// Leaves the node at which the walk stands.
    pub(crate) fn pass(&mut self)
        ensures { self.new ≡ passed self.old }
    {
        match self.stand {
            Stand::Before => {}
            Stand::Ahead => self.stand = Stand::Before,
            Stand::Ended => {}
        }
    }

    pub(crate) fn copy(&self) -> Result<AxisWalk, AllocError>
        ensures { IfOk result (λ walk. walk ≡ self.now) }
    {
        Ok(AxisWalk {
            cursor: self.cursor.copy()?,
            stand: self.stand,
        })
    }
}

fn is_ahead(stand: Stand) -> bool
    ensures { result ≡ is_ahead stand }
{
    match stand {
        Stand::Before => false,
        Stand::Ahead => true,
        Stand::Ended => false,
    }
}

/// Goes to the next hit from before it, and else stays.
#[tactic(auto, unfolding(crate::specs::Courses::walk_moves))]
fn settle<L: Ledger>(cursor: &mut Cursor, stand: Stand, steps: &mut Steps<L>) -> Stand
    requires { stand ≡ Ahead → is_some cursor.old.present ≡ true }
    ensures moves { walk_moves result cursor.new ≡ settled (walk_moves stand cursor.old) }
    ensures found { is_ahead result ≡ is_some (standing (walk_moves result cursor.new)) }
    ensures ahead { result ≡ Ahead → is_some cursor.new.present ≡ true }
    ensures steps { steps.new ≡ steps.old + steps_before (walk_moves stand cursor.old) }
{
    match stand {
        Stand::Before => seek(cursor, steps),
        Stand::Ahead => Stand::Ahead,
        Stand::Ended => Stand::Ended,
    }
}

/// Goes to the next hit, or past the end.
#[tactic(auto, unfolding(crate::specs::Courses::walk_moves))]
fn seek<L: Ledger>(cursor: &mut Cursor, steps: &mut Steps<L>) -> Stand
    ensures moves { walk_moves result cursor.new ≡ settled (moves_to_come cursor.old) }
    ensures found { is_ahead result ≡ is_some (standing (walk_moves result cursor.new)) }
    ensures ahead { result ≡ Ahead → is_some cursor.new.present ≡ true }
    ensures steps { steps.new ≡ steps.old + steps_before (moves_to_come cursor.old) }
{
    if go_to_hit(cursor, steps) {
        Stand::Ahead
    } else {
        Stand::Ended
    }
}

/// Goes to the next hit; false exactly where there is none.
fn go_to_hit<L: Ledger>(cursor: &mut Cursor, steps: &mut Steps<L>) -> bool
    ensures hit { result ≡ true → settled (moves_to_come cursor.old)
        ≡ present_moves cursor.new.present ++ moves_to_come cursor.new }
    ensures stands { result ≡ true → is_some cursor.new.present ≡ true }
    ensures none { result ≡ false → settled (moves_to_come cursor.old) ≡ [] }
    ensures steps { steps.new ≡ steps.old + steps_before (moves_to_come cursor.old) }
{
    while cursor.advance(steps) {
        if cursor.is_hit() {
            return true;
        }
    }
    false
}

ghost use Rattle.std.specs.Prelude.{◌≡◌, ◌+◌, ◌++◌, ◌≤◌, IfOk, None, [], true, false, is_some};
ghost use Rattle.std.specs.Option.{option_to_list};
ghost use Rattle.std.specs.Vec.{vec_capacity};
ghost use Rattle.xt_tree.specs.TreeView.{tree_depth};
ghost use Rattle.node_axes.specs.Axes.{axis_nodes};
ghost use Rattle.node_axes.specs.Course.{to_come, is_at_hit};

use crate::axis_steps::move_on;
use crate::steps::Steps;
use node_tests::spot_passes;
use std::alloc::{AllocError, Global};
use std::marker::Model;
use std::sync::ledger::Ledger;
use xt_tree::{Node, Tree};
use xt_types::{Axis, Test};

/// A walk along an axis of a node (XPath 2.0, 3.2.1.1). It holds one way from the root, and no list of nodes. Contracts see
/// the node whose axis it is, the axis, the test, whether a first step was taken, and the present node.
#[derive(Drop)]
pub struct Cursor {
    start: Node,
    axis: Axis,
    test: Test,
    begun: bool,
    here: bool,
    path: Vec<usize>,
    attribute: Option<usize>,
}

impl Model for Cursor {
    ghost use Rattle.node_axes.specs.Course.{Course, present_at};
    ghost use Rattle.node_axes.specs.Moves.{IsSteady};
    ghost use Rattle.std.specs.Vec.{vec_capacity};
    ghost use Rattle.std.specs.Coded.{codes};
    ghost use Rattle.xt_tree.specs.Forest.{forest_code};

    ghost Value = { Course };

    ghost coded = { Prim.hlevel (codes, forest_code) };

    ghost view = { λ c. record { start = c.start; axis = c.axis; test = c.test; begun = c.begun; present = present_at c.here c.start c.path.items c.attribute } };

    ghost invariant = { λ c. IsSteady c.axis c.start c.begun c.here c.path.items c.attribute (vec_capacity c.path) };
}

impl Cursor {
    /// A cursor before the first node of the axis. It reserves room for the longest way down in the tree.
    pub fn new(alloc: Global, node: &Node, axis: Axis, test: Test) -> Result<Cursor, AllocError>
        ensures made { IfOk result (λ cursor. cursor ≡ record { start = node.now; axis = axis; test = test; begun = false; present = None }) }
        ensures all { IfOk result (λ cursor. to_come cursor ≡ axis_nodes axis node.now) }
    {
        // A call on the node shows the proof that its place is one of the tree.
        let _kind = node.kind();
        Ok(Cursor {
            start: node.copy()?,
            axis,
            test,
            begun: false,
            here: false,
            path: reserved(alloc, node.tree(), node.path())?,
            attribute: node.attribute_place(),
        })
    }

    /// Goes to the next node of the axis, whatever the test, and counts one step; false exactly where there is none, and the
    /// cursor stays past the end then. It takes no memory.
    pub fn advance<L: Ledger>(&mut self, steps: &mut Steps<L>) -> bool
        ensures counted { steps.new ≡ steps.old + 1 }
        ensures found { result ≡ is_some self.new.present }
        ensures walk { to_come self.old ≡ option_to_list self.new.present ++ to_come self.new }
        ensures end { result ≡ false → to_come self.old ≡ [] }
        ensures begun { self.new.begun ≡ true }
        ensures start { self.new.start ≡ self.old.start }
        ensures axis { self.new.axis ≡ self.old.axis }
        ensures test { self.new.test ≡ self.old.test }
    {
        steps.count();
        self.here = move_on(
            self.axis,
            &self.start,
            self.begun,
            self.here,
            &mut self.path,
            &mut self.attribute,
        );
        self.begun = true;
        self.here
    }

    /// Whether the present node passes the test; false where there is none. It takes no memory.
    pub fn is_hit(&self) -> bool
        ensures { result ≡ is_at_hit self.now.axis self.now.test self.now.present }
    {
        self.here
            && spot_passes(
                &self.test,
                self.axis,
                self.start.tree(),
                self.path.as_slice(),
                self.attribute,
            )
    }

    /// The present node; None exactly before the first step and past the end.
    pub fn node(&self) -> Result<Option<Node>, AllocError>
        ensures { IfOk result (λ node. node ≡ self.now.present) }
    {
        if !self.here {
            return Ok(None);
        }
        let node = Node::at_place(
            *self.path.allocator(),
            self.start.number(),
            self.start.tree().copy()?,
            self.path.as_slice(),
            self.attribute,
        )?;
        Ok(node)
    }

    /// A cursor at the same place, which shares the tree.
    pub fn copy(&self) -> Result<Cursor, AllocError>
        ensures { IfOk result (λ cursor. cursor ≡ self.now) }
    {
        Ok(Cursor {
            start: self.start.copy()?,
            axis: self.axis,
            test: self.test.copy()?,
            begun: self.begun,
            here: self.here,
            path: reserved(
                *self.path.allocator(),
                self.start.tree(),
                self.path.as_slice(),
            )?,
            attribute: self.attribute,
        })
    }
}

/// The same path, with room for the longest way down in the tree.
fn reserved(alloc: Global, tree: &Tree, path: &[usize]) -> Result<Vec<usize>, AllocError>
    ensures items { IfOk result (λ made. made.items ≡ path.now) }
    ensures room { IfOk result (λ made. tree_depth tree.now ≤ vec_capacity made) }
{
    let depth = tree.depth();
    if depth == u32::MAX {
        return Err(AllocError);
    }
    let mut made = Vec::with_capacity(alloc, depth as usize)?;
    made.extend_from_slice(path)?;
    Ok(made)
}

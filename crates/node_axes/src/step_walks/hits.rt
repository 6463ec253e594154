// The nodes of an axis that pass the test, one by one.
ghost use Rattle.std.specs.Prelude.{◌≡◌, ◌+◌, ◌<◌, IfOk, true, false, is_some};
ghost use Rattle.node_axes.specs.StepWalks.Hits.{Gives, hits_ahead, steps_ahead, stands_at};

use crate::{Cursor, Steps};
use std::alloc::AllocError;
use std::marker::Brand;
use std::sync::ledger::{Blank, Ledger};
use xt_tree::Node;

/// Goes to the next node that passes the cursor's test; false exactly where there is none. It takes no memory, and counts a
/// step for each node on the way.
pub fn go_to_hit<L: Ledger>(cursor: &mut Cursor, steps: &mut Steps<L>) -> bool
    ensures gives { Gives (stands_at result cursor.new) (hits_ahead cursor.old) (hits_ahead cursor.new) }
    ensures found { result ≡ true → is_some cursor.new.present ≡ true }
    ensures steps { steps.new ≡ steps.old + steps_ahead cursor.old }
{
    while cursor.advance(steps) {
        if cursor.is_hit() {
            return true;
        }
    }
    false
}

/// The next node that passes the cursor's test; None exactly where there is none.
pub fn next_hit(cursor: &mut Cursor) -> Result<Option<Node>, AllocError>
    ensures { IfOk result (λ node. Gives node (hits_ahead cursor.old) (hits_ahead cursor.new)) }
{
    let node = walk_to_hit::<Brand>(Blank::new(1), cursor)?;
    Ok(node)
}

fn walk_to_hit<L: Ledger>(blank: Blank, cursor: &mut Cursor) -> Result<Option<Node>, AllocError>
    requires name { blank.name ≡ L.name }
    requires parts { blank.parts ≡ L.parts }
    requires one { 0 < blank.parts }
    ensures { IfOk result (λ node. Gives node (hits_ahead cursor.old) (hits_ahead cursor.new)) }
{
    let mut steps = Steps::<L>::begin(blank);
    if !go_to_hit(cursor, &mut steps) {
        return Ok(None);
    }
    let node = cursor.node()?;
    Ok(node)
}

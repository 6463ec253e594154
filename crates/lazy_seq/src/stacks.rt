// Sequences one after another, as a stack whose top is walked first. Where a part is such a stack
// too, its parts are moved up once, so that a walk takes linear time however deep concatenations
// nest.
ghost use Rattle.std.specs.Prelude.{◌≡◌, ◌++◌, ◌+◌, ◌≤◌, ◌<◌, IfOk, OnErr, Ok, true, false};
ghost use Rattle.std.specs.Prelude.{[], length, slice_get, is_some};
ghost use Rattle.node_walks.specs.Moves.{given, steps_before, all_steps, settled, has_item, giving};
ghost use Rattle.lazy_seq.specs.Stacks.{stacked, total_weight, IsReady};

use crate::seqs::Seq;
use node_walks::node_axes::Steps;
use std::alloc::AllocError;
use std::sync::ledger::Ledger;
use xdm_items::Item;

/// What a look at the top of a stack finds: a first item, none, or a stack.
#[derive(Drop)]
pub(crate) enum Top {
    Ready,
    Nothing,
    Stack(Vec<Seq>),
}

/// Brings a sequence to the top of the stack that is no stack itself and has an item; false where
/// there is no item.
pub(crate) fn bring_up<L: Ledger>(
    parts: &mut Vec<Seq>,
    steps: &mut Steps<L>,
) -> Result<bool, AllocError>
    ensures rest { settled (stacked parts.new.items) ≡ settled (stacked parts.old.items) }
    ensures some { let before = given (stacked parts.old.items) in
        IfOk result (λ some. some ≡ has_item before) }
    ensures ready { IfOk result (λ some. some ≡ true → IsReady parts.new.items) }
    ensures none { IfOk result (λ some. some ≡ false → parts.new.items ≡ []) }
    ensures steps { steps.new + steps_before (stacked parts.new.items)
        ≡ steps.old + steps_before (stacked parts.old.items) }
    ensures on { steps.old ≤ steps.new }
{
    while !parts.as_slice().is_empty() {
        if turn(parts, steps)? {
            return Ok(true);
        }
    }
    Ok(false)
}

/// One look at the top of the stack. A sequence without an item is put away, and a stack gives its
/// parts; true where the top is no stack and has an item.
fn turn<L: Ledger>(parts: &mut Vec<Seq>, steps: &mut Steps<L>) -> Result<bool, AllocError>
    requires { 0 < length parts.old.items }
    ensures rest { settled (stacked parts.new.items) ≡ settled (stacked parts.old.items) }
    ensures ready { result ≡ Ok true → IsReady parts.new.items }
    ensures less { let weight = total_weight parts.old.items in
        result ≡ Ok false → total_weight parts.new.items < weight }
    ensures steps { steps.new + steps_before (stacked parts.new.items)
        ≡ steps.old + steps_before (stacked parts.old.items) }
    ensures on { steps.old ≤ steps.new }
{
    let alloc = *parts.allocator();
    let last = parts.as_slice().len() - 1;
    match parts[last].look(alloc, steps)? {
        Top::Ready => return Ok(true),
        Top::Nothing => {
            parts.truncate(last);
            return Ok(false);
        }
        Top::Stack(mut inner) => {
            match parts.append(&mut inner) {
                Ok(()) => return Ok(false),
                Err(fault) => {
                    parts[last].refill(inner);
                    return Err(fault);
                }
            }
        }
    }
}

/// The first item of a stack, which still gives it.
pub(crate) fn first_of_parts<L: Ledger>(
    parts: &mut Vec<Seq>,
    steps: &mut Steps<L>,
) -> Result<Option<Item>, AllocError>
    ensures rest { settled (stacked parts.new.items) ≡ settled (stacked parts.old.items) }
    ensures first { IfOk result (λ item. item ≡ slice_get (given (stacked parts.old.items)) 0) }
    ensures steps { steps.new + steps_before (stacked parts.new.items)
        ≡ steps.old + steps_before (stacked parts.old.items) }
    ensures on { steps.old ≤ steps.new }
{
    if !bring_up(parts, steps)? {
        return Ok(None);
    }
    let last = parts.as_slice().len() - 1;
    let item = parts[last].first_of_top(steps)?;
    Ok(item)
}

/// Takes the first item out of a stack.
pub(crate) fn next_of_parts<L: Ledger>(
    parts: &mut Vec<Seq>,
    steps: &mut Steps<L>,
) -> Result<Option<Item>, AllocError>
    ensures after { let before = settled (stacked parts.old.items) in
        IfOk result (λ item. before ≡ giving item ++ stacked parts.new.items) }
    ensures some { let before = given (stacked parts.old.items) in
        IfOk result (λ item. is_some item ≡ has_item before) }
    ensures err { let before = settled (stacked parts.old.items) in
        OnErr result (settled (stacked parts.new.items) ≡ before) }
    ensures steps { steps.new ≤ steps.old + steps_before (stacked parts.old.items) }
    ensures all { steps.new + all_steps (stacked parts.new.items)
        ≡ steps.old + all_steps (stacked parts.old.items) }
{
    if !bring_up(parts, steps)? {
        return Ok(None);
    }
    let last = parts.as_slice().len() - 1;
    let item = parts[last].next_of_top(steps)?;
    Ok(item)
}

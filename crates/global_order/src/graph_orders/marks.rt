// Numbers and lists by places.
ghost use Rattle.std.specs.Prelude.{◌≡◌, ◌++◌, ◌∷◌, [], set, get_or, length, nat_lt, if◌then◌else◌, replicate, IfOk, OnOk};
ghost use Rattle.global_order.specs.GraphOrders.Checks.{with_more};

use std::alloc::{AllocError, Global};
use xt_names::List;

/// So many times 0.
#[tactic(auto, using(std::proofs::lemmas::List::replicate_more))]
pub(crate) fn zeros(alloc: Global, count: usize) -> Result<Vec<usize>, AllocError>
    ensures { IfOk result (λ made. made.items ≡ replicate count 0) }
{
    let mut made = Vec::new(alloc);
    for turn in 0..count {
        made.push(0)?;
    }
    Ok(made)
}

/// So many lists of nothing.
#[tactic(auto, using(std::proofs::lemmas::List::replicate_more))]
pub(crate) fn no_rows(alloc: Global, count: usize) -> Result<Vec<List<usize>>, AllocError>
    ensures { IfOk result (λ made. made.items ≡ replicate count []) }
{
    let mut made = Vec::new(alloc);
    for turn in 0..count {
        made.push(List::new(alloc))?;
    }
    Ok(made)
}

/// Puts the number at the place, if there is one.
pub(crate) fn put(numbers: &mut Vec<usize>, place: usize, number: usize)
    ensures { numbers.new.items ≡ (if nat_lt place (length numbers.old.items)
        then set numbers.old.items place number else numbers.old.items) }
{
    if place < numbers.len() {
        numbers[place] = number;
    }
}

/// Puts the number at the end of the list at the place, if there is one.
pub(crate) fn push_at(
    rows: &mut Vec<List<usize>>,
    place: usize,
    number: usize,
) -> Result<(), AllocError>
    ensures { OnOk result (rows.new.items ≡ with_more place number rows.old.items) }
{
    if place < rows.len() {
        rows[place].push(number)
    } else {
        Ok(())
    }
}

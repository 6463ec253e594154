// The parts of a concatenation, which are read and not walked.
ghost use Rattle.std.specs.Prelude.{◌≡◌, ◌+◌, ◌≤◌, ◌<◌, ◌^◌, IfOk, length, slice_get, ℕ};
ghost use Rattle.std.specs.Option.{SomeIff, MatchOption};
ghost use Rattle.node_walks.specs.Moves.{given};
ghost use Rattle.lazy_seq.specs.Stacks.{stacked};

use crate::seqs::{Seq, Shape};
use std::alloc::{AllocError, Global};
use xdm_items::Item;

/// The same parts.
pub(crate) fn copy_parts(alloc: Global, parts: &[Seq]) -> Result<Vec<Seq>, AllocError>
    ensures { IfOk result (λ made. made.items ≡ parts.now) }
{
    let mut made = Vec::new(alloc);
    for part in parts {
        match &part.shape {
            Shape::Leaf(leaf) => {
                let shape = Shape::Leaf(leaf.copy()?);
                made.push(Seq { shape })?;
            }
            Shape::Parts(inner) => {
                let shape = Shape::Parts(copy_parts(alloc, inner.as_slice())?);
                made.push(Seq { shape })?;
            }
        }
    }
    Ok(made)
}

/// How many items the parts have; None exactly past 2^63-1.
pub(crate) fn count_parts(parts: &[Seq]) -> Result<Option<u64>, AllocError>
    ensures { let n = length (given (stacked parts.now)) in
        IfOk result (λ count. SomeIff count (n < 2 ^ 63) n) }
{
    let mut total: u64 = 0;
    for part in parts {
        match &part.shape {
            Shape::Leaf(leaf) => match sum(total, leaf.count()?) {
                Some(more) => total = more,
                None => return Ok(None),
            },
            Shape::Parts(inner) => match sum(total, count_parts(inner.as_slice())?) {
                Some(more) => total = more,
                None => return Ok(None),
            },
        }
    }
    Ok(Some(total))
}

/// The sum of two counts, where none stands for more than 2^63-1.
fn sum(total: u64, more: Option<u64>) -> Option<u64>
    ensures { (n : ℕ) → SomeIff more (n < 2 ^ 63) n
        → SomeIff result (total + n < 2 ^ 63) (total + n) }
{
    match more {
        Some(more) => {
            let sum = total.saturating_add(more);
            if sum <= 0x7FFF_FFFF_FFFF_FFFF {
                Some(sum)
            } else {
                None
            }
        }
        None => None,
    }
}

/// The item at the place, from 0.
pub(crate) fn at_parts(parts: &[Seq], place: u64) -> Result<Option<Item>, AllocError>
    requires { place < 2 ^ 63 }
    ensures { IfOk result (λ item. item ≡ slice_get (given (stacked parts.now)) place) }
{
    let mut left = place;
    let mut end = parts.len();
    while end > 0 {
        end -= 1;
        let part = &parts[end];
        match &part.shape {
            Shape::Leaf(leaf) => match past(left, leaf.count()?) {
                Some(more) => left = more,
                None => return leaf.at(left),
            },
            Shape::Parts(inner) => match past(left, count_parts(inner.as_slice())?) {
                Some(more) => left = more,
                None => return at_parts(inner.as_slice(), left),
            },
        }
    }
    Ok(None)
}

/// How far a place is past so many items; None where it is among them.
fn past(place: u64, count: Option<u64>) -> Option<u64>
    requires { place < 2 ^ 63 }
    ensures { (n : ℕ) → SomeIff count (n < 2 ^ 63) n
        → MatchOption result (place < n) (λ more. place ≡ n + more) }
{
    match count {
        Some(count) if count <= place => Some(place - count),
        _ => None,
    }
}

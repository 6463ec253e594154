// The places of the pairs that have one of several keys.
ghost use Rattle.std.specs.Prelude.{◌≡◌, [], List as Items, IfOk};
ghost use Rattle.order_group.specs.Groups.{places_where};
ghost use Rattle.order_group.specs.AtomKeys.Tables.{places_of};
ghost use Rattle.key_index.specs.Keys.{with_pairs, has_one};
ghost use Rattle.key_index.specs.Merges.{merged};
ghost use Rattle.key_index.specs.declared.indexes.KeyPair.{KeyPair as Pair};

use order_group::atom_keys::{KeyEntry, KeyTable};
use std::alloc::{AllocError, Global};
use std::cmp::Ordering;
use xt_atoms::Atom;

/// The places under the keys, in order and each once. The keys are halved again and again, so that
/// the calls nest at most 64 deep, and each place is moved once for each of them.
pub(crate) fn places_among(
    alloc: Global,
    table: &KeyTable,
    keys: &[KeyEntry],
) -> Result<Vec<u64>, AllocError>
    ensures { IfOk result (λ places. (pairs : Items Pair) → table.now ≡ with_pairs [] 0 pairs
        → places.items ≡ places_where (has_one keys.now) 0 pairs) }
{
    match keys {
        [] => Ok(Vec::new(alloc)),
        [key] => places_under(alloc, table, &key.key),
        _ => {
            let half = keys.len() / 2;
            let first = places_among(alloc, table, &keys[..half])?;
            let second = places_among(alloc, table, &keys[half..])?;
            merged(alloc, first.as_slice(), second.as_slice())
        }
    }
}

fn places_under(alloc: Global, table: &KeyTable, key: &Atom) -> Result<Vec<u64>, AllocError>
    ensures { IfOk result (λ places. places.items ≡ places_of table.now key.now) }
{
    let places = table.places(key)?;
    let mut copied = Vec::with_capacity(alloc, places.len())?;
    copied.extend_from_slice(places)?;
    Ok(copied)
}

/// Two rising lists as one, in which each place stands once.
fn merged(alloc: Global, first: &[u64], second: &[u64]) -> Result<Vec<u64>, AllocError>
    ensures { IfOk result (λ made. made.items ≡ merged first.now second.now) }
{
    let mut made = Vec::new(alloc);
    let mut left = 0;
    let mut right = 0;
    while left < first.len() && right < second.len() {
        let (a, b) = (first[left], second[right]);
        match a.cmp(&b) {
            Ordering::Less => {
                made.push(a)?;
                left += 1;
            }
            Ordering::Equal => {
                made.push(a)?;
                left += 1;
                right += 1;
            }
            Ordering::Greater => {
                made.push(b)?;
                right += 1;
            }
        }
    }
    made.extend_from_slice(&first[left..])?;
    made.extend_from_slice(&second[right..])?;
    Ok(made)
}

// Types of sequences and of casts.
ghost use Rattle.std.specs.Prelude.{◌≡◌, IfOk};
ghost use Rattle.expr_control.specs.Types.{item_of, sequence_of, count_in, count_of, marked, typed, single};

use bound_prefixes::BoundPrefixes;
use expr_rules::expr_meant::{Meant, has_parts, key_of};
use expr_rules::type_of;
use expr_terms::Key;
use std::alloc::{AllocError, Global};
use xt_names::AtomType;
use xt_types::{Count, ItemType, SeqType};

#[tactic(auto, unfolding(crate::specs::Types::item_of))]
fn item_of(alloc: Global, bound: &BoundPrefixes, part: &Meant) -> Result<ItemType, AllocError>
    ensures { IfOk result (λ made. made ≡ item_of bound.now part.now) }
{
    match part {
        Meant::Token(_) => Ok(ItemType::Atomic(type_of(alloc, bound, part)?)),
        Meant::Kind(kind) => Ok(ItemType::Kind(kind.copy()?)),
        _ => Ok(ItemType::Any),
    }
}

/// The type of a sequence that the part is; without a mark it is of one item.
#[tactic(auto, unfolding(crate::specs::Types::sequence_of))]
pub fn sequence_of(
    alloc: Global,
    bound: &BoundPrefixes,
    part: &Meant,
) -> Result<SeqType, AllocError>
    ensures { IfOk result (λ made. made ≡ sequence_of bound.now part.now) }
{
    match part {
        Meant::Sequence(kind) => kind.copy(),
        _ => Ok(SeqType::Of(item_of(alloc, bound, part)?, Count::One)),
    }
}

#[tactic(auto, unfolding(crate::specs::Types::count_in))]
fn count_in(key: Key) -> Count
    ensures { result ≡ count_in key }
{
    match key {
        Key::Question => Count::Opt,
        Key::Star => Count::Many,
        Key::Plus => Count::More,
        _ => Count::One,
    }
}

fn count_of(parts: &[Meant]) -> Count
    ensures { result ≡ count_of parts.now }
{
    match parts {
        [] => Count::One,
        [mark, ..] => count_in(key_of(mark)),
    }
}

/// The type of an item with its mark.
pub fn marked(alloc: Global, bound: &BoundPrefixes, parts: &[Meant]) -> Result<SeqType, AllocError>
    ensures { IfOk result (λ made. made ≡ marked bound.now parts.now) }
{
    match parts {
        [] => Ok(SeqType::Empty),
        [item, rest @ ..] => Ok(SeqType::Of(item_of(alloc, bound, item)?, count_of(rest))),
    }
}

/// The type that is the first part.
pub fn typed(alloc: Global, bound: &BoundPrefixes, parts: &[Meant]) -> Result<SeqType, AllocError>
    ensures { IfOk result (λ made. made ≡ typed bound.now parts.now) }
{
    match parts {
        [] => Ok(SeqType::Empty),
        [kind, ..] => sequence_of(alloc, bound, kind),
    }
}

/// The type of a cast, and whether `?` comes after it.
pub fn single(alloc: Global, bound: &BoundPrefixes, parts: &[Meant]) -> Result<Meant, AllocError>
    ensures { IfOk result (λ made. made ≡ single bound.now parts.now) }
{
    match parts {
        [] => Ok(Meant::Single(AtomType::Any, false)),
        [kind, rest @ ..] => {
            let kind = type_of(alloc, bound, kind)?;
            Ok(Meant::Single(kind, has_parts(rest)))
        }
    }
}

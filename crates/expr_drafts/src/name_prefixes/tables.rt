// The first prefix of each uri.
ghost use Rattle.std.specs.Prelude.{◌≡◌, ℕ, List, IfOk, OnOk};
ghost use Rattle.std.specs.HashMap.{get};
ghost use Rattle.std.specs.Str.{bytes_eq};
ghost use Rattle.bound_prefixes.specs.First.{or_later};
ghost use Rattle.expr_drafts.specs.NamePrefixes.Firsts.{prefix_at, prefix_by, prefix_of};

use bound_prefixes::BoundPrefixes;
use expr_names::uri_of;
use std::alloc::{AllocError, Global};
use std::collections::HashMap;
use xt_names::{Binding, Text};

/// Adds the prefix of a uri that has none yet.
fn add_first(table: &mut HashMap<Text, Text>, uri: &Text, prefix: &Text) -> Result<(), AllocError>
    ensures { OnOk result ((key : List ℕ) → get bytes_eq table.new key
        ≡ or_later (get bytes_eq table.old key) (prefix_at uri.now prefix.now key)) }
{
    match table.get(uri) {
        Some(_) => Ok(()),
        None => {
            table.insert(uri.copy()?, prefix.copy()?)?;
            Ok(())
        }
    }
}

/// Adds the prefix of the binding, where names can have it and its uri has none yet.
#[tactic(auto, using(crate::proofs::NamePrefixes::TableLemmas::additions))]
fn add_binding(
    alloc: Global,
    table: &mut HashMap<Text, Text>,
    bound: &BoundPrefixes,
    binding: &Binding,
) -> Result<(), AllocError>
    ensures { OnOk result ((key : List ℕ) → get bytes_eq table.new key
        ≡ or_later (get bytes_eq table.old key) (prefix_by bound.now binding.now key)) }
{
    if binding.prefix.is_empty() {
        return Ok(());
    }
    let uri = uri_of(alloc, bound, &binding.prefix)?;
    if uri.is_empty() {
        return Ok(());
    }
    add_first(table, &uri, &binding.prefix)
}

/// The first prefix of each uri.
pub(crate) fn table_of(
    alloc: Global,
    bound: &BoundPrefixes,
) -> Result<HashMap<Text, Text>, AllocError>
    ensures { IfOk result (λ table. (uri : List ℕ) → get bytes_eq table uri
        ≡ prefix_of bound.now uri) }
{
    let mut table = HashMap::new(alloc);
    for binding in bound.as_slice() {
        add_binding(alloc, &mut table, bound, binding)?;
    }
    Ok(table)
}

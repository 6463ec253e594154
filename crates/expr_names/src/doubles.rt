// Names that stand twice.
ghost use Rattle.std.specs.Prelude.{◌≡◌, not, true, if◌then◌else◌, IfOk, OnOk};
ghost use Rattle.std.specs.List.{list_any};
ghost use Rattle.xt_names.specs.declared.names.Name.{Name};
ghost use Rattle.expr_names.specs.Doubles.{names_differ};
ghost use Rattle.xt_names.specs.Names.{same_name, has_key};

use std::alloc::{AllocError, Global};
use std::collections::HashSet;
use xt_names::Name;

/// Up to so many names it is faster to compare each pair than to make a table.
const FEW: usize = 32;

/// Whether no two names have one uri and local part. Past a few names it takes memory for a table
/// of them.
pub fn names_differ(alloc: Global, names: &[Name]) -> Result<bool, AllocError>
    ensures { IfOk result (λ differ. differ ≡ names_differ names.now) }
{
    if names.len() <= FEW {
        return Ok(all_pairs_differ(names));
    }
    names_differ_by_table(alloc, names)
}

/// The same without memory: each pair is compared.
fn all_pairs_differ(names: &[Name]) -> bool
    ensures { result ≡ names_differ names.now }
{
    let mut left = names;
    while let [first, rest @ ..] = left {
        if has_name(rest, first) {
            return false;
        }
        left = rest;
    }
    true
}

fn names_differ_by_table(alloc: Global, names: &[Name]) -> Result<bool, AllocError>
    ensures { IfOk result (λ differ. differ ≡ names_differ names.now) }
{
    let mut seen = HashSet::with_capacity(alloc, names.len())?;
    for name in names {
        if !put_name(&mut seen, name)? {
            return Ok(false);
        }
    }
    Ok(true)
}

/// Puts the name into the table, and tells whether it is new there.
fn put_name(seen: &mut HashSet<Name>, name: &Name) -> Result<bool, AllocError>
    ensures added { IfOk result (λ added. added ≡ not (has_key seen.old name.now)) }
    ensures keys { OnOk result ((key : Name) → has_key seen.new key ≡ (if same_name name.now key then true else has_key seen.old key)) }
{
    let added = seen.insert(name.copy()?)?;
    Ok(added)
}

fn has_name(names: &[Name], name: &Name) -> bool
    ensures { result ≡ list_any (same_name name.now) names.now }
{
    names.iter().any(|other| *name == *other)
}

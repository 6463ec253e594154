// The attributes of an element, whose names differ.
ghost use Rattle.std.specs.Prelude.{◌≡◌, ◌++◌, not, true, if◌then◌else◌, IfOk, OnOk};
ghost use Rattle.xt_names.specs.declared.names.Name.{Name};
ghost use Rattle.xt_names.specs.Names.{has_key, same_name};
ghost use Rattle.node_builder.specs.Answers.{Makes};
ghost use Rattle.node_builder.specs.Complex.{last_of_each, distinct};
ghost use Rattle.node_builder.specs.Kept.{kept_one};

use crate::faults::BuildFault;
use crate::kinds::Duplicates;
use std::alloc::{AllocError, Global};
use std::collections::HashSet;
use xt_names::{Code, List, Name, QueryDynamicCode};
use xt_tree::{Attribute, names_differ};

/// Of attributes with the same name the last, at its own place, or the error where there are such.
pub(crate) fn distinct(
    alloc: Global,
    side: Duplicates,
    attributes: List<Attribute>,
) -> Result<List<Attribute>, BuildFault>
    ensures { Makes result (distinct side attributes) }
{
    let differ = names_differ(alloc, attributes.as_slice())?;
    if differ {
        return Ok(attributes);
    }
    match side {
        Duplicates::KeepLast => {
            let kept = last_of_each(alloc, attributes)?;
            Ok(kept)
        }
        Duplicates::Refuse => Err(BuildFault::Error(Code::QueryDynamic(
            QueryDynamicCode::XQDY0025,
        ))),
    }
}

/// Of attributes with the same name the last.
fn last_of_each(alloc: Global, attributes: List<Attribute>) -> Result<List<Attribute>, AllocError>
    ensures { IfOk result (λ kept. kept ≡ last_of_each attributes) }
{
    let mut left = attributes.into_vec();
    let mut seen = HashSet::with_capacity(alloc, left.len())?;
    let mut kept = Vec::new(alloc);
    while let Some(attribute) = left.pop() {
        let is_new = put_name(&mut seen, &attribute.name)?;
        push_new(&mut kept, is_new, attribute)?;
    }
    kept.reverse();
    Ok(List::of_vec(kept))
}

/// Puts the attribute at the end, if its name is new.
fn push_new(kept: &mut Vec<Attribute>, is_new: bool, attribute: Attribute) -> Result<(), AllocError>
    ensures { OnOk result (kept.new.items ≡ kept.old.items ++ kept_one is_new attribute) }
{
    if !is_new {
        return Ok(());
    }
    kept.push(attribute)?;
    Ok(())
}

/// Puts the name into the table, and tells whether it is new there.
fn put_name(seen: &mut HashSet<Name>, name: &Name) -> Result<bool, AllocError>
    ensures added { IfOk result (λ added. added ≡ not (has_key seen.old name.now)) }
    ensures keys { OnOk result ((key : Name) → has_key seen.new key ≡ (if same_name name.now key then true else has_key seen.old key)) }
{
    let added = seen.insert(name.copy()?)?;
    Ok(added)
}

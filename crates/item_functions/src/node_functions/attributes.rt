// The attributes of two elements.
ghost use Rattle.std.specs.Prelude.{◌≡◌, IfOk};
ghost use Rattle.std.specs.List.{list_all};
ghost use Rattle.item_functions.specs.NodeFunctions.Deep.{has_attribute, same_attribute, same_attributes};

use crate::node_functions::attribute_tables::all_in_table;
use std::alloc::{AllocError, Global};
use xt_atoms::same_name;
use xt_tree::Attribute;

/// Up to so many attributes it is faster to compare each pair than to make a table.
const FEW: usize = 16;

/// Whether there are as many attributes, and each of them has an equal one among the others.
#[tactic(auto, unfolding(crate::specs::NodeFunctions::Deep::same_attributes))]
pub(crate) fn same_attributes(
    alloc: Global,
    attributes: &[Attribute],
    others: &[Attribute],
) -> Result<bool, AllocError>
    ensures { IfOk result (λ same. same ≡ same_attributes attributes.now others.now) }
{
    if attributes.len() != others.len() {
        return Ok(false);
    }
    if others.len() <= FEW {
        return Ok(all_among(attributes, others));
    }
    all_in_table(alloc, attributes, others)
}

fn all_among(attributes: &[Attribute], others: &[Attribute]) -> bool
    ensures { result ≡ list_all (has_attribute others.now) attributes.now }
{
    attributes.iter().all(|a| has_attribute(others, a))
}

fn has_attribute(attributes: &[Attribute], attribute: &Attribute) -> bool
    ensures { result ≡ has_attribute attributes.now attribute.now }
{
    attributes
        .iter()
        .any(|other| same_attribute(other, attribute))
}

#[tactic(auto, unfolding(crate::specs::NodeFunctions::Deep::same_attribute))]
fn same_attribute(a: &Attribute, b: &Attribute) -> bool
    ensures { result ≡ same_attribute a.now b.now }
{
    same_name(&a.name, &b.name) && a.value == b.value
}

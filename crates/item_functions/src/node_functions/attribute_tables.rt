// Tables of attributes, for elements that have many.
ghost use Rattle.std.specs.Prelude.{◌≡◌, if◌then◌else◌, true, IfOk, OnOk};
ghost use Rattle.std.specs.List.{list_all, list_any};
ghost use Rattle.xt_tree.specs.declared.attributes.Attribute.{Attribute as AnAttribute};
ghost use Rattle.item_functions.specs.NodeFunctions.AttributeTables.{has_key, key_of, same_key};
ghost use Rattle.item_functions.specs.NodeFunctions.Deep.{has_attribute};
ghost use Rattle.item_functions.specs.declared.node_functions.attribute_tables.AttributeKey.{AttributeKey as AKey};

use std::alloc::{AllocError, Global};
use std::collections::HashSet;
use xt_names::{Name, Text};
use xt_tree::Attribute;

/// What counts of an attribute: its name, without the prefix, and its value.
#[derive(Drop, PartialEq, Eq, Hash)]
pub(crate) struct AttributeKey {
    name: Name,
    value: Text,
}

impl AttributeKey {
    fn of(attribute: &Attribute) -> Result<AttributeKey, AllocError>
        ensures { IfOk result (λ key. key ≡ key_of attribute.now) }
    {
        Ok(AttributeKey {
            name: attribute.name.copy()?,
            value: attribute.value.copy()?,
        })
    }
}

/// Whether each of the attributes has an equal one among the others.
pub(crate) fn all_in_table(
    alloc: Global,
    attributes: &[Attribute],
    others: &[Attribute],
) -> Result<bool, AllocError>
    ensures { IfOk result (λ all. all ≡ list_all (has_attribute others.now) attributes.now) }
{
    let table = table_of(alloc, others)?;
    are_all_in(&table, attributes)
}

fn table_of(alloc: Global, others: &[Attribute]) -> Result<HashSet<AttributeKey>, AllocError>
    ensures { IfOk result (λ table. (key : AKey) →
        has_key table key ≡ list_any (λ a. same_key (key_of a) key) others.now) }
{
    let mut table = HashSet::with_capacity(alloc, others.len())?;
    for attribute in others {
        put(&mut table, attribute)?;
    }
    Ok(table)
}

fn put(table: &mut HashSet<AttributeKey>, attribute: &Attribute) -> Result<(), AllocError>
    ensures { OnOk result ((key : AKey) →
        has_key table.new key
        ≡ (if same_key (key_of attribute.now) key then true else has_key table.old key)) }
{
    let key = AttributeKey::of(attribute)?;
    table.insert(key)?;
    Ok(())
}

fn are_all_in(table: &HashSet<AttributeKey>, attributes: &[Attribute]) -> Result<bool, AllocError>
    ensures { IfOk result (λ all. all
        ≡ list_all (λ a. has_key table.now (key_of a)) attributes.now) }
{
    for attribute in attributes {
        let key = AttributeKey::of(attribute)?;
        if !table.contains(&key) {
            return Ok(false);
        }
    }
    Ok(true)
}

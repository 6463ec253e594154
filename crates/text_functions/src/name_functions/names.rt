// The names of nodes.
ghost use Rattle.std.specs.Prelude.{◌≡◌, [], IfOk};
ghost use Rattle.xt_atoms.specs.Casts.{Answers};
ghost use Rattle.text_functions.specs.NameFunctions.NodeNames.{argument_name, lexical, local_name_of, local_text, name_of, namespace_uri_of, node_name_of, of_optional_name, place_name, target_name, uri_text};

use std::alloc::{AllocError, Global};
use xdm_items::ItemList;
use xdm_items::function_arguments::{atom_list, no_items, optional_node, text_list};
use xt_atoms::{Atom, ValueFault, qname_text};
use xt_names::{Name, Text, TextBuilder};
use xt_tree::Node;

/// The name of the node as a text, its prefix included, and the empty text where there is no node
/// or it has no name (`fn:name`, Functions and Operators, 14.1); XPTY0004 where the argument is
/// not at most one node.
#[tactic(auto, unfolding(crate::specs::NameFunctions::NodeNames::name_of))]
pub fn name(alloc: Global, argument: &ItemList) -> Result<ItemList, ValueFault>
    ensures { Answers (name_of argument.now) result }
{
    let found = argument_name(alloc, argument)?;
    Ok(text_list(alloc, lexical(alloc, found)?)?)
}

/// The local part of the name of the node, and the empty text where there is no node or it has no
/// name (`fn:local-name`, Functions and Operators, 14.2); XPTY0004 where the argument is not at
/// most one node.
#[tactic(auto, unfolding(crate::specs::NameFunctions::NodeNames::local_name_of))]
pub fn local_name(alloc: Global, argument: &ItemList) -> Result<ItemList, ValueFault>
    ensures { Answers (local_name_of argument.now) result }
{
    let found = argument_name(alloc, argument)?;
    Ok(text_list(alloc, local_text(alloc, found)?)?)
}

/// The uri of the name of the node, and the empty text where there is no node or its name has no
/// uri (`fn:namespace-uri`, Functions and Operators, 14.3); XPTY0004 where the argument is not at
/// most one node.
#[tactic(auto, unfolding(crate::specs::NameFunctions::NodeNames::namespace_uri_of))]
pub fn namespace_uri(alloc: Global, argument: &ItemList) -> Result<ItemList, ValueFault>
    ensures { Answers (namespace_uri_of argument.now) result }
{
    let found = argument_name(alloc, argument)?;
    Ok(text_list(alloc, uri_text(alloc, found)?)?)
}

/// The name of the node as a QName, and nothing where there is no node or it has no name
/// (`fn:node-name`, Functions and Operators, 2.1); XPTY0004 where the argument is not at most one
/// node.
#[tactic(auto, unfolding(crate::specs::NameFunctions::NodeNames::node_name_of))]
pub fn node_name(alloc: Global, argument: &ItemList) -> Result<ItemList, ValueFault>
    ensures { Answers (node_name_of argument.now) result }
{
    let found = argument_name(alloc, argument)?;
    Ok(name_list(alloc, found)?)
}

/// The name of the node that the argument is, if it has one.
#[tactic(auto, unfolding(crate::specs::NameFunctions::NodeNames::argument_name))]
fn argument_name(alloc: Global, argument: &ItemList) -> Result<Option<Name>, ValueFault>
    ensures { Answers (argument_name argument.now) result }
{
    match optional_node(alloc, argument)? {
        Some(node) => Ok(place_name(alloc, &node)?),
        None => Ok(None),
    }
}

/// The name of a node (XDM, 5.11).
#[tactic(auto, unfolding(crate::specs::NameFunctions::NodeNames::place_name))]
fn place_name(alloc: Global, node: &Node) -> Result<Option<Name>, AllocError>
    ensures { IfOk result (λ name. name ≡ place_name node.now) }
{
    if let Some(name) = node.name() {
        return Ok(Some(name.copy()?));
    }
    match node.target() {
        Some(target) => Ok(Some(target_name(alloc, target)?)),
        None => Ok(None),
    }
}

/// The target of a processing instruction is its local name, without a uri.
fn target_name(alloc: Global, target: &Text) -> Result<Name, AllocError>
    ensures { IfOk result (λ name. name ≡ target_name target.now) }
{
    Ok(Name {
        prefix: no_text(alloc)?,
        uri: no_text(alloc)?,
        local: target.copy()?,
    })
}

#[tactic(auto, unfolding(xt_atoms::specs::AtomTexts::text_of))]
fn lexical(alloc: Global, name: Option<Name>) -> Result<Text, AllocError>
    ensures { IfOk result (λ text. text ≡ lexical name) }
{
    match name {
        Some(name) => qname_text(alloc, &name),
        None => no_text(alloc),
    }
}

fn local_text(alloc: Global, name: Option<Name>) -> Result<Text, AllocError>
    ensures { IfOk result (λ text. text ≡ local_text name) }
{
    match name {
        Some(name) => name.local.copy(),
        None => no_text(alloc),
    }
}

fn uri_text(alloc: Global, name: Option<Name>) -> Result<Text, AllocError>
    ensures { IfOk result (λ text. text ≡ uri_text name) }
{
    match name {
        Some(name) => name.uri.copy(),
        None => no_text(alloc),
    }
}

fn name_list(alloc: Global, name: Option<Name>) -> Result<ItemList, AllocError>
    ensures { IfOk result (λ items. items ≡ of_optional_name name) }
{
    match name {
        Some(name) => atom_list(alloc, Atom::of_name(alloc, name)?),
        None => Ok(no_items(alloc)),
    }
}

/// The empty text.
fn no_text(alloc: Global) -> Result<Text, AllocError>
    ensures { IfOk result (λ text. text ≡ []) }
{
    TextBuilder::new(alloc).finish()
}

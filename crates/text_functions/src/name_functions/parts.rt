// The parts of QNames.
ghost use Rattle.std.specs.Prelude.{◌≡◌, IfOk};
ghost use Rattle.xt_atoms.specs.Casts.{Answers};
ghost use Rattle.xdm_items.specs.FunctionArguments.Answers.{of_optional_text};
ghost use Rattle.text_functions.specs.NameFunctions.QNames.{local_name_from_qname_of, local_part, namespace_uri_from_qname_of, own_prefix, prefix_from_qname_of, prefix_part, uri_part};

use std::alloc::{AllocError, Global};
use xdm_items::ItemList;
use xdm_items::function_arguments::{no_items, optional_name, text_list};
use xt_atoms::ValueFault;
use xt_names::Name;

/// The prefix of the QName, and nothing where there is none (`fn:prefix-from-QName`, Functions
/// and Operators, 11.2.2); XPTY0004 where the argument is not at most one QName.
#[tactic(auto, unfolding(crate::specs::NameFunctions::QNames::prefix_from_qname_of))]
pub fn prefix_from_qname(alloc: Global, argument: &ItemList) -> Result<ItemList, ValueFault>
    ensures { Answers (prefix_from_qname_of argument.now) result }
{
    let name = optional_name(alloc, argument)?;
    Ok(prefix_list(alloc, name)?)
}

/// The local part of the QName, and nothing where there is no QName (`fn:local-name-from-QName`,
/// Functions and Operators, 11.2.3); XPTY0004 where the argument is not at most one QName.
#[tactic(auto, unfolding(crate::specs::NameFunctions::QNames::local_name_from_qname_of))]
pub fn local_name_from_qname(alloc: Global, argument: &ItemList) -> Result<ItemList, ValueFault>
    ensures { Answers (local_name_from_qname_of argument.now) result }
{
    let name = optional_name(alloc, argument)?;
    Ok(local_list(alloc, name)?)
}

/// The uri of the QName, the empty text where it has none, and nothing where there is no QName
/// (`fn:namespace-uri-from-QName`, Functions and Operators, 11.2.4); XPTY0004 where the argument
/// is not at most one QName.
#[tactic(auto, unfolding(crate::specs::NameFunctions::QNames::namespace_uri_from_qname_of))]
pub fn namespace_uri_from_qname(alloc: Global, argument: &ItemList) -> Result<ItemList, ValueFault>
    ensures { Answers (namespace_uri_from_qname_of argument.now) result }
{
    let name = optional_name(alloc, argument)?;
    Ok(uri_list(alloc, name)?)
}

fn prefix_list(alloc: Global, name: Option<Name>) -> Result<ItemList, AllocError>
    ensures { IfOk result (λ items. items ≡ of_optional_text (prefix_part name)) }
{
    match name {
        Some(name) => own_prefix(alloc, &name),
        None => Ok(no_items(alloc)),
    }
}

fn own_prefix(alloc: Global, name: &Name) -> Result<ItemList, AllocError>
    ensures { IfOk result (λ items. items ≡ of_optional_text (own_prefix name.now)) }
{
    if name.prefix.is_empty() {
        return Ok(no_items(alloc));
    }
    text_list(alloc, name.prefix.copy()?)
}

fn local_list(alloc: Global, name: Option<Name>) -> Result<ItemList, AllocError>
    ensures { IfOk result (λ items. items ≡ of_optional_text (local_part name)) }
{
    match name {
        Some(name) => text_list(alloc, name.local.copy()?),
        None => Ok(no_items(alloc)),
    }
}

fn uri_list(alloc: Global, name: Option<Name>) -> Result<ItemList, AllocError>
    ensures { IfOk result (λ items. items ≡ of_optional_text (uri_part name)) }
{
    match name {
        Some(name) => text_list(alloc, name.uri.copy()?),
        None => Ok(no_items(alloc)),
    }
}

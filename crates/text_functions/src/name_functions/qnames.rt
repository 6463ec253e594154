// QNames of their texts.
ghost use Rattle.std.specs.Prelude.{◌≡◌, IfOk};
ghost use Rattle.std.specs.Str.{chars};
ghost use Rattle.xt_atoms.specs.Casts.{Answers};
ghost use Rattle.text_functions.specs.NameFunctions.QNames.{allowed_name, named, prefixed_name, qname_of, spelled_name};

use std::alloc::{AllocError, Global};
use text_operations::split_at_first;
use xdm_items::ItemList;
use xdm_items::function_arguments::{atom_list, text, text_or_empty};
use xt_atoms::{Atom, ValueFault};
use xt_names::{Code, DynamicCode, Name, is_ncname};

const NO_NAME: ValueFault = ValueFault::Error(Code::Dynamic(DynamicCode::FOCA0002));

/// The QName that the second text spells in the namespace of the first (`fn:QName`, Functions and
/// Operators, 11.1.2); FOCA0002 where it spells none, or where XML and its namespaces do not
/// allow that name.
#[tactic(auto, unfolding(crate::specs::NameFunctions::QNames::qname_of))]
pub fn qname(alloc: Global, uri: &ItemList, name: &ItemList) -> Result<ItemList, ValueFault>
    ensures { Answers (qname_of uri.now name.now) result }
{
    let namespace = text_or_empty(alloc, uri)?;
    let spelled = text(alloc, name)?;
    let made = spelled_name(alloc, namespace.as_str(), spelled.as_str())?;
    named(alloc, made)
}

fn named(alloc: Global, name: Option<Name>) -> Result<ItemList, ValueFault>
    ensures { Answers (named name) result }
{
    match name {
        Some(name) => Ok(atom_list(alloc, Atom::of_name(alloc, name)?)?),
        None => Err(NO_NAME),
    }
}

/// The name that the text spells in the namespace: a name without a colon, or two of them with a
/// colon between them.
#[tactic(auto, using(crate::proofs::TextLemmas::no_chars, xt_names::proofs::TextLemmas::colon_chars), unfolding(crate::specs::NameFunctions::QNames::spelled_name))]
fn spelled_name(alloc: Global, uri: &str, spelled: &str) -> Result<Option<Name>, AllocError>
    ensures { IfOk result (λ name. name ≡ spelled_name (chars uri.now) (chars spelled.now)) }
{
    match split_at_first(spelled, ":") {
        Some((prefix, local)) => prefixed_name(alloc, prefix, uri, local),
        None => allowed_name(alloc, "", uri, spelled),
    }
}

fn prefixed_name(
    alloc: Global,
    prefix: &str,
    uri: &str,
    local: &str,
) -> Result<Option<Name>, AllocError>
    ensures { IfOk result (λ name. name ≡ prefixed_name (chars prefix.now) (chars uri.now) (chars local.now)) }
{
    if !is_ncname(prefix) {
        return Ok(None);
    }
    allowed_name(alloc, prefix, uri, local)
}

fn allowed_name(
    alloc: Global,
    prefix: &str,
    uri: &str,
    local: &str,
) -> Result<Option<Name>, AllocError>
    ensures { IfOk result (λ name. name ≡ allowed_name (chars prefix.now) (chars uri.now) (chars local.now)) }
{
    Name::make(alloc, prefix, uri, local)
}

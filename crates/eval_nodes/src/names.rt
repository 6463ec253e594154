// Names that constructors compute.
ghost use Rattle.std.specs.Prelude.{◌≡◌, []};
ghost use Rattle.std.specs.Str.{chars};
ghost use Rattle.xt_atoms.specs.Casts.{Answers};
ghost use Rattle.xdm_items.specs.FunctionArguments.Arguments.{and_then};
ghost use Rattle.expr_meaning.specs.Names.{in_namespace, without_prefix, name_of_text, name_of_atom, name_of_items, attribute_name};

use crate::uris::namespace_of;
use expr_meaning::operator_values::atom_of;
use expr_names::no_text;
use std::alloc::Global;
use text_operations::split_at_first;
use xdm_items::ItemList;
use xt_atoms::{Atom, ValueFault};
use xt_names::{Binding, Code, Name, QueryDynamicCode, Text, is_ascii_text, is_ncname};

const NO_NAME: ValueFault = ValueFault::Error(Code::QueryDynamic(QueryDynamicCode::XQDY0074));

fn in_namespace(alloc: Global, prefix: &str, uri: Text, local: &str) -> Result<Name, ValueFault>
    ensures { Answers (in_namespace (chars prefix.now) uri (chars local.now)) result }
{
    if is_ncname(local) && is_ncname(prefix) {
        if uri.is_empty() {
            return Err(NO_NAME);
        }
        return Ok(Name {
            prefix: Text::make(alloc, prefix)?,
            uri,
            local: Text::make(alloc, local)?,
        });
    }
    Err(NO_NAME)
}

fn without_prefix(alloc: Global, default: &Text, text: &str) -> Result<Name, ValueFault>
    ensures { Answers (without_prefix default.now (chars text.now)) result }
{
    if !is_ncname(text) {
        return Err(NO_NAME);
    }
    Ok(Name {
        prefix: no_text(alloc)?,
        uri: default.copy()?,
        local: Text::make(alloc, text)?,
    })
}

#[tactic(auto, using(xt_names::proofs::TextLemmas::colon_chars), unfolding(expr_meaning::specs::Names::name_of_text))]
fn name_of_text(
    alloc: Global,
    namespaces: &[Binding],
    default: &Text,
    text: &str,
) -> Result<Name, ValueFault>
    ensures { Answers (name_of_text namespaces.now default.now (chars text.now)) result }
{
    match split_at_first(text, ":") {
        None => without_prefix(alloc, default, text),
        Some((prefix, local)) => {
            let uri = namespace_of(alloc, namespaces, prefix)?;
            in_namespace(alloc, prefix, uri, local)
        }
    }
}

fn name_of_atom(
    alloc: Global,
    namespaces: &[Binding],
    default: &Text,
    atom: &Atom,
) -> Result<Name, ValueFault>
    ensures { Answers (name_of_atom namespaces.now default.now atom.now) result }
{
    match atom {
        Atom::QName(name) => Ok(name.get().copy()?),
        Atom::Str(text) | Atom::Untyped(text) => {
            name_of_text(alloc, namespaces, default, text.as_str())
        }
        Atom::Int(_) | Atom::Bool(_) => Err(NO_NAME),
    }
}

/// The name that a computed element has: one atom that is a QName, or a text that spells a name
/// whose prefix is declared; `default` is the namespace of one without a prefix. All else is
/// XQDY0074 (XQuery 1.0, 3.7.3.1).
#[inline(never)]
pub fn computed_element(
    alloc: Global,
    namespaces: &[Binding],
    default: &Text,
    items: &ItemList,
) -> Result<Name, ValueFault>
    ensures { Answers (name_of_items namespaces.now default.now items.now) result }
{
    match items.as_slice() {
        [only] => {
            let atom = atom_of(alloc, only)?;
            let name = name_of_atom(alloc, namespaces, default, &atom);
            drop(atom);
            name
        }
        _ => Err(NO_NAME),
    }
}

/// The name of an attribute, which is not `xmlns`: XQDY0044 (XQuery 1.0, 3.7.3.2).
#[inline(never)]
pub fn checked_attribute(name: Name) -> Result<Name, Code>
    ensures { result ≡ attribute_name name }
{
    if name.uri.is_empty() && is_ascii_text(name.local.as_str(), "xmlns") {
        drop(name);
        return Err(Code::QueryDynamic(QueryDynamicCode::XQDY0044));
    }
    Ok(name)
}

/// The name that a computed attribute has, as that of an element, but one without a prefix is in no
/// namespace (XQuery 1.0, 3.7.3.2).
#[inline(never)]
pub fn computed_attribute(
    alloc: Global,
    namespaces: &[Binding],
    items: &ItemList,
) -> Result<Name, ValueFault>
    ensures { Answers (and_then (name_of_items namespaces.now [] items.now) attribute_name) result }
{
    let none = no_text(alloc)?;
    let name = computed_element(alloc, namespaces, &none, items)?;
    match checked_attribute(name) {
        Ok(name) => Ok(name),
        Err(code) => Err(ValueFault::Error(code)),
    }
}

// Namespaces: the names that a start tag gives in a scope.
ghost use Rattle.std.specs.Prelude.{◌≡◌, ◌++◌, [], true, false, map, Some, None, IfOk, OnOk, MatchBool, MatchOption};
ghost use Rattle.std.specs.List.{list_all};
ghost use Rattle.std.specs.Option.{option_map};
ghost use Rattle.std.specs.Str.{chars};
ghost use Rattle.name_scopes.specs.Scopes.{bound_uri};
ghost use Rattle.doc_grammar.specs.Scopes.{declared_by, declarations, is_binding, prefixes_differ, prefix_name, are_declarations, element_name, attribute_name, named_attributes, opened, in_namespace, with_declaration, one_named, behind_named};
ghost use Rattle.xml_source.specs.View.{name_of};
ghost use Rattle.doc_reader.specs.View.{attribute_of, tag_of};
ghost use Rattle.doc_reader.specs.Opening.{OpensTag};

use crate::pools::Pool;
use crate::tags::{RawAttribute, RawTag};
use name_scopes::NamespaceScope;
use std::alloc::{AllocError, Global};
use xml_source::RawName;
use xt_names::{Binding, List, Name, Text, is_ascii_text, keeps_xml, keeps_xmlns};
use xt_tree::{Attribute, Attrs, names_differ};

/// The prefix that an attribute of this name declares.
#[tactic(auto, using(crate::proofs::ScopeLemmas::chars_empty), unfolding(doc_grammar::specs::Scopes::declared_by))]
fn declared_by<'a>(name: RawName<'a>) -> Option<&'a str>
    ensures { option_map (λ p. chars p.now) result ≡ declared_by (name_of name.entry) }
{
    match name.prefix {
        None if is_ascii_text(name.local, "xmlns") => Some(""),
        Some(prefix) if is_ascii_text(prefix, "xmlns") => Some(name.local),
        _ => None,
    }
}

/// What a start tag opens: its name, its attributes, and its declarations.
#[derive(Drop)]
pub(crate) struct OpenedTag {
    pub(crate) element: Name,
    pub(crate) attributes: Attrs,
    pub(crate) declarations: List<Binding>,
}

/// Opens a start tag in the scope, to which its declarations are added; None where a rule on names is broken.
#[tactic(auto, unfolding(doc_grammar::specs::Scopes::opened))]
pub(crate) fn open_tag(
    alloc: Global,
    pool: &mut Pool,
    scope: &mut NamespaceScope,
    tag: &RawTag<'_>,
) -> Result<Option<OpenedTag>, AllocError>
    ensures { IfOk result (λ o. MatchOption o (opened scope.old (tag_of tag.now) ≡ None) (λ t. OpensTag scope.old (tag_of tag.now) t scope.new)) }
{
    let declared = declarations(alloc, &tag.attributes)?;
    if !are_declarations(alloc, pool, declared.as_slice())? {
        return Ok(None);
    }
    scope.push_all(declared.as_slice())?;
    let Some(element) = element_name(alloc, pool, scope, tag.name)? else {
        return Ok(None);
    };
    let Some(attributes) = named_attributes(alloc, pool, scope, &tag.attributes)? else {
        return Ok(None);
    };
    if !names_differ(alloc, attributes.as_slice())? {
        return Ok(None);
    }
    let attributes = pool.attributes(alloc, attributes)?;
    Ok(Some(OpenedTag {
        element,
        attributes,
        declarations: declared,
    }))
}

/// The namespace declarations among the attributes.
fn declarations(alloc: Global, attributes: &[RawAttribute<'_>]) -> Result<List<Binding>, AllocError>
    ensures { IfOk result (λ made. made ≡ declarations (map attribute_of attributes.now)) }
{
    let mut declared = List::new(alloc);
    for attribute in attributes {
        declare(alloc, attribute, &mut declared)?;
    }
    Ok(declared)
}

// Adds the declaration that an attribute is, if it is one.
fn declare(
    alloc: Global,
    attribute: &RawAttribute<'_>,
    declared: &mut List<Binding>,
) -> Result<(), AllocError>
    ensures { OnOk result (declared.new ≡ declared.old ++ with_declaration (declared_by (name_of attribute.now.name)) attribute.now.value []) }
{
    match declared_by(attribute.name) {
        Some(prefix) => {
            let prefix = Text::make(alloc, prefix)?;
            let uri = attribute.value.copy()?;
            declared.push(Binding { prefix, uri })
        }
        None => Ok(()),
    }
}

/// Whether the declarations of one start tag are allowed.
#[tactic(auto, unfolding(doc_grammar::specs::Scopes::are_declarations))]
fn are_declarations(alloc: Global, pool: &Pool, bindings: &[Binding]) -> Result<bool, AllocError>
    ensures { IfOk result (λ allowed. allowed ≡ are_declarations bindings.now) }
{
    Ok(are_all_bindings(bindings) && prefixes_differ(alloc, pool, bindings)?)
}

fn are_all_bindings(bindings: &[Binding]) -> bool
    ensures { result ≡ list_all is_binding bindings.now }
{
    bindings.iter().all(|b| is_binding(b))
}

#[tactic(auto, unfolding(doc_grammar::specs::Scopes::is_binding))]
fn is_binding(binding: &Binding) -> bool
    ensures { result ≡ is_binding binding.now }
{
    (binding.prefix.is_empty() || !binding.uri.is_empty())
        && keeps_xml(binding.prefix.as_str(), binding.uri.as_str())
        && keeps_xmlns(binding.prefix.as_str(), binding.uri.as_str())
}

/// Whether no prefix is declared twice. Prefixes are looked up as names without uri, so that many take no scan.
#[tactic(auto, using(crate::proofs::ScopeLemmas::differ_as_names))]
fn prefixes_differ(alloc: Global, pool: &Pool, bindings: &[Binding]) -> Result<bool, AllocError>
    ensures { IfOk result (λ differ. differ ≡ prefixes_differ bindings.now) }
{
    let names = prefix_names(alloc, pool, bindings)?;
    names_differ(alloc, names.as_slice())
}

#[tactic(auto, using(crate::proofs::ScopeLemmas::chars_empty))]
fn prefix_names(
    alloc: Global,
    pool: &Pool,
    bindings: &[Binding],
) -> Result<List<Attribute>, AllocError>
    ensures { IfOk result (λ names. names ≡ map prefix_name bindings.now) }
{
    let mut names = List::new(alloc);
    for binding in bindings {
        names.push(prefix_name(pool, binding)?)?;
    }
    Ok(names)
}

// The prefix as the name of an attribute.
#[tactic(auto, unfolding(doc_grammar::specs::Scopes::prefix_name))]
fn prefix_name(pool: &Pool, binding: &Binding) -> Result<Attribute, AllocError>
    ensures { IfOk result (λ made. made ≡ prefix_name binding.now) }
{
    Ok(Attribute {
        name: Name {
            prefix: pool.empty()?,
            uri: pool.empty()?,
            local: binding.prefix.copy()?,
        },
        value: pool.empty()?,
    })
}

/// The name of an element, if its prefix is declared.
#[tactic(auto, using(crate::proofs::ScopeLemmas::chars_empty), unfolding(doc_grammar::specs::Scopes::element_name))]
fn element_name(
    alloc: Global,
    pool: &mut Pool,
    scope: &NamespaceScope,
    name: RawName<'_>,
) -> Result<Option<Name>, AllocError>
    ensures { IfOk result (λ made. made ≡ element_name scope.now (name_of name.entry)) }
{
    match name.prefix {
        Some(prefix) => prefixed_name(alloc, pool, scope, prefix, name.local),
        None => {
            let uri = match scope.binding_of(alloc, "")? {
                Some(binding) => binding.uri.copy()?,
                None => pool.empty()?,
            };
            Ok(Some(Name {
                prefix: pool.empty()?,
                uri,
                local: pool.text(alloc, name.local)?,
            }))
        }
    }
}

/// The name of an attribute, if its prefix is declared.
#[tactic(auto, using(crate::proofs::ScopeLemmas::chars_empty), unfolding(doc_grammar::specs::Scopes::attribute_name))]
fn attribute_name(
    alloc: Global,
    pool: &mut Pool,
    scope: &NamespaceScope,
    name: RawName<'_>,
) -> Result<Option<Name>, AllocError>
    ensures { IfOk result (λ made. made ≡ attribute_name scope.now (name_of name.entry)) }
{
    match name.prefix {
        Some(prefix) => prefixed_name(alloc, pool, scope, prefix, name.local),
        None => {
            let no_uri = pool.empty()?;
            Ok(Some(Name {
                prefix: pool.empty()?,
                uri: no_uri,
                local: pool.text(alloc, name.local)?,
            }))
        }
    }
}

fn prefixed_name(
    alloc: Global,
    pool: &mut Pool,
    scope: &NamespaceScope,
    prefix: &str,
    local: &str,
) -> Result<Option<Name>, AllocError>
    ensures { IfOk result (λ made. made ≡ in_namespace (chars prefix.now) (chars local.now) (bound_uri scope.now (chars prefix.now))) }
{
    match scope.binding_of(alloc, prefix)? {
        None => Ok(None),
        Some(binding) => Ok(Some(Name {
            prefix: binding.prefix.copy()?,
            uri: binding.uri.copy()?,
            local: pool.text(alloc, local)?,
        })),
    }
}

/// The attributes that are no declarations, if all their prefixes are declared.
fn named_attributes(
    alloc: Global,
    pool: &mut Pool,
    scope: &NamespaceScope,
    attributes: &[RawAttribute<'_>],
) -> Result<Option<List<Attribute>>, AllocError>
    ensures { IfOk result (λ made. made ≡ named_attributes scope.now (map attribute_of attributes.now)) }
{
    let mut named = List::new(alloc);
    for attribute in attributes {
        if !name_one(alloc, pool, scope, attribute, &mut named)? {
            return Ok(None);
        }
    }
    Ok(Some(named))
}

// Names one attribute, if it is no declaration, or says that its prefix is not declared.
fn name_one(
    alloc: Global,
    pool: &mut Pool,
    scope: &NamespaceScope,
    attribute: &RawAttribute<'_>,
    named: &mut List<Attribute>,
) -> Result<bool, AllocError>
    ensures { IfOk result (λ went. MatchBool went
        (behind_named named.old (one_named scope.now (attribute_of attribute.now)) ≡ Some named.new)
        (one_named scope.now (attribute_of attribute.now) ≡ None)) }
{
    if declared_by(attribute.name).is_some() {
        return Ok(true);
    }
    match attribute_name(alloc, pool, scope, attribute.name)? {
        Some(name) => {
            let value = attribute.value.copy()?;
            named.push(Attribute { name, value })?;
            Ok(true)
        }
        None => Ok(false),
    }
}

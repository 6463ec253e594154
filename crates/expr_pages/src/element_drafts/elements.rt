// Computed constructors on a draft.
ghost use Rattle.std.specs.Prelude.{◌≡◌, OnOk};
ghost use Rattle.expr_raws.specs.ElementRaws.Makers.{braced, made, element, attribute, instruction};
ghost use Rattle.expr_raws.specs.ElementRaws.Makers.{enclosing};
ghost use Rattle.expr_raws.specs.Raws.{form_of};
ghost use Rattle.expr_drafts.specs.ExprPlaces.Forms.{name_form};

use expr_drafts::expr_places::LIST;
use expr_drafts::name_prefixes::NamePrefixes;
use expr_drafts::name_tokens::{bare_node_token, node_token};
use expr_drafts::{Draft, Spot};
use expr_terms::{Class, Key};
use query_pages::Gap;
use std::alloc::{AllocError, Global};
use xt_syntax::{Expr, NameSource};

/// `{ a }`, with the content on a line of its own.
fn push_braced<'a>(
    draft: &mut Draft<'a>,
    prefixes: &'a NamePrefixes,
    at: Spot,
    content: &'a Expr,
) -> Result<(), AllocError>
    ensures { OnOk result (draft.new
        ≡ braced (form_of prefixes.now content.now) draft.old) }
{
    draft.push_key(at.line(), Key::CloseBrace)?;
    draft.push_part(prefixes, at.line_part(), LIST, content)?;
    draft.push_key(Gap::Space, Key::OpenBrace)
}

/// A constructor whose name is computed.
fn push_made<'a>(
    draft: &mut Draft<'a>,
    prefixes: &'a NamePrefixes,
    at: Spot,
    key: Key,
    name: &'a Expr,
    content: &'a Expr,
) -> Result<(), AllocError>
    ensures { OnOk result (draft.new ≡ (made key (form_of prefixes.now name.now)
        (form_of prefixes.now content.now)).tokens draft.old) }
{
    push_braced(draft, prefixes, at, content)?;
    draft.push_key(Gap::Space, Key::CloseBrace)?;
    draft.push_part(prefixes, at.part(), LIST, name)?;
    draft.push_key(Gap::Space, Key::OpenBrace)?;
    draft.push_key(at.first, key)
}

/// `element n { a }`.
pub fn push_element<'a>(
    alloc: Global,
    draft: &mut Draft<'a>,
    prefixes: &'a NamePrefixes,
    at: Spot,
    name: &'a NameSource,
    content: &'a Expr,
) -> Result<(), AllocError>
    ensures { OnOk result (draft.new ≡ (element prefixes.now
        (name_form prefixes.now name.now)
        (form_of prefixes.now content.now)).tokens draft.old) }
{
    match name {
        NameSource::Fixed(name) => {
            let plain = prefixes.plain();
            let default = &plain.element_default;
            match node_token(alloc, Class::Name, &plain.bound, default, name)? {
                None => Ok(()),
                Some(token) => {
                    push_braced(draft, prefixes, at, content)?;
                    draft.push(Gap::Space, token)?;
                    draft.push_key(at.first, Key::ElementWord)
                }
            }
        }
        NameSource::Computed(name) => {
            push_made(draft, prefixes, at, Key::ElementWord, name.get(), content)
        }
    }
}

/// `attribute n { a }`.
pub fn push_attribute<'a>(
    alloc: Global,
    draft: &mut Draft<'a>,
    prefixes: &'a NamePrefixes,
    at: Spot,
    name: &'a NameSource,
    content: &'a Expr,
) -> Result<(), AllocError>
    ensures { OnOk result (draft.new ≡ (attribute prefixes.now
        (name_form prefixes.now name.now)
        (form_of prefixes.now content.now)).tokens draft.old) }
{
    match name {
        NameSource::Fixed(name) => {
            let plain = prefixes.plain();
            match bare_node_token(alloc, Class::Name, &plain.bound, name)? {
                None => Ok(()),
                Some(token) => {
                    push_braced(draft, prefixes, at, content)?;
                    draft.push(Gap::Space, token)?;
                    draft.push_key(at.first, Key::AttributeWord)
                }
            }
        }
        NameSource::Computed(name) => {
            push_made(draft, prefixes, at, Key::AttributeWord, name.get(), content)
        }
    }
}

/// `processing-instruction n { a }`.
pub fn push_instruction<'a>(
    alloc: Global,
    draft: &mut Draft<'a>,
    prefixes: &'a NamePrefixes,
    at: Spot,
    name: &'a NameSource,
    content: &'a Expr,
) -> Result<(), AllocError>
    ensures { OnOk result (draft.new ≡ (instruction prefixes.now
        (name_form prefixes.now name.now)
        (form_of prefixes.now content.now)).tokens draft.old) }
{
    let key = Key::ProcessingInstructionWord;
    match name {
        NameSource::Fixed(name) => {
            let plain = prefixes.plain();
            match bare_node_token(alloc, Class::Word, &plain.bound, name)? {
                None => Ok(()),
                Some(token) => {
                    push_braced(draft, prefixes, at, content)?;
                    draft.push(Gap::Space, token)?;
                    draft.push_key(at.first, key)
                }
            }
        }
        NameSource::Computed(name) => push_made(draft, prefixes, at, key, name.get(), content),
    }
}

/// `document { a }`, `text { a }`, `comment { a }`.
pub fn push_enclosing<'a>(
    draft: &mut Draft<'a>,
    prefixes: &'a NamePrefixes,
    at: Spot,
    key: Key,
    content: &'a Expr,
) -> Result<(), AllocError>
    ensures { OnOk result (draft.new
        ≡ (enclosing key (form_of prefixes.now content.now)).tokens draft.old) }
{
    push_braced(draft, prefixes, at, content)?;
    draft.push_key(at.first, key)
}

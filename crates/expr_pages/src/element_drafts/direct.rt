// Direct elements on a draft.
ghost use Rattle.std.specs.Prelude.{◌≡◌, ◌∷◌, map, OnOk};
ghost use Rattle.expr_raws.specs.ElementRaws.Direct.{part_tokens, parts_tokens, attrs_tokens, direct};
ghost use Rattle.expr_raws.specs.ElementRaws.Direct.{closing_tokens, front_token, shut_token, attr_token};
ghost use Rattle.expr_drafts.specs.ExprPlaces.Forms.{part_form, attr_form};
ghost use Rattle.expr_pages.specs.ElementDrafts.Attributes.{pair_tokens};

use crate::element_drafts::runs::push_run;
use expr_drafts::expr_places::LIST;
use expr_drafts::name_prefixes::NamePrefixes;
use expr_drafts::{Draft, Spot};
use expr_terms::{Key, Token};
use query_pages::Gap;
use std::alloc::{AllocError, Global};
use xt_names::Name;
use xt_syntax::{DirectAttr, Part};

fn push_front(draft: &mut Draft<'_>, first: Gap, name: &Name) -> Result<(), AllocError>
    ensures { OnOk result (draft.new ≡ front_token name.now ∷ draft.old) }
{
    draft.push(
        first,
        Token::StartTagOpen(name.prefix.copy()?, name.local.copy()?),
    )
}

fn push_shut(draft: &mut Draft<'_>, name: &Name) -> Result<(), AllocError>
    ensures { OnOk result (draft.new ≡ shut_token name.now ∷ draft.old) }
{
    let token = Token::EndTag(name.prefix.copy()?, name.local.copy()?);
    draft.push(Gap::Space, token)
}

fn push_attribute_name(draft: &mut Draft<'_>, name: &Name) -> Result<(), AllocError>
    ensures { OnOk result (draft.new ≡ attr_token name.now ∷ draft.old) }
{
    let token = Token::Attribute(name.prefix.copy()?, name.local.copy()?);
    draft.push(Gap::Space, token)
}

/// `<n a="..">..</n>`.
pub fn push_direct<'a>(
    alloc: Global,
    draft: &mut Draft<'a>,
    prefixes: &'a NamePrefixes,
    at: Spot,
    name: &Name,
    attrs: &'a [DirectAttr],
    parts: &'a [Part],
) -> Result<(), AllocError>
    ensures { OnOk result (draft.new ≡ (direct prefixes.now name.now
        (map (attr_form prefixes.now) attrs.now)
        (map (part_form prefixes.now) parts.now)).tokens draft.old) }
{
    push_closing(alloc, draft, prefixes, at, name, parts)?;
    push_attrs(alloc, draft, prefixes, at, attrs)?;
    push_front(draft, at.first, name)
}

/// `/>`, or `>`, the content and the end tag.
fn push_closing<'a>(
    alloc: Global,
    draft: &mut Draft<'a>,
    prefixes: &'a NamePrefixes,
    at: Spot,
    name: &Name,
    parts: &'a [Part],
) -> Result<(), AllocError>
    ensures { OnOk result (draft.new ≡ closing_tokens name.now
        (map (part_form prefixes.now) parts.now) draft.old) }
{
    match parts {
        [] => draft.push(Gap::Space, Token::EmptyEnd),
        _ => {
            push_shut(draft, name)?;
            push_parts(alloc, draft, prefixes, at, false, parts)?;
            draft.push(Gap::Space, Token::TagEnd)
        }
    }
}

fn push_attrs<'a>(
    alloc: Global,
    draft: &mut Draft<'a>,
    prefixes: &'a NamePrefixes,
    at: Spot,
    attrs: &'a [DirectAttr],
) -> Result<(), AllocError>
    ensures { OnOk result (draft.new
        ≡ attrs_tokens (map (attr_form prefixes.now) attrs.now) draft.old) }
{
    let mut left = attrs.len();
    while left > 0 {
        left -= 1;
        push_attr(alloc, draft, prefixes, at, &attrs[left])?;
    }
    Ok(())
}

/// `a=".."`.
fn push_attr<'a>(
    alloc: Global,
    draft: &mut Draft<'a>,
    prefixes: &'a NamePrefixes,
    at: Spot,
    attr: &'a DirectAttr,
) -> Result<(), AllocError>
    ensures { OnOk result (draft.new
        ≡ pair_tokens (attr_form prefixes.now attr.now) draft.old) }
{
    draft.push(Gap::Space, Token::AttributeEnd)?;
    push_parts(
        alloc,
        draft,
        prefixes,
        at,
        true,
        attr.parts.get().as_slice(),
    )?;
    push_attribute_name(draft, &attr.name)
}

/// The parts of content, or of the value of an attribute.
fn push_parts<'a>(
    alloc: Global,
    draft: &mut Draft<'a>,
    prefixes: &'a NamePrefixes,
    at: Spot,
    value: bool,
    parts: &'a [Part],
) -> Result<(), AllocError>
    ensures { OnOk result (draft.new
        ≡ parts_tokens value (map (part_form prefixes.now) parts.now) draft.old) }
{
    let mut left = parts.len();
    while left > 0 {
        left -= 1;
        push_part(alloc, draft, prefixes, at, value, &parts[left])?;
    }
    Ok(())
}

#[tactic(auto, using(crate::proofs::ElementDrafts::Inner::child_same))]
fn push_part<'a>(
    alloc: Global,
    draft: &mut Draft<'a>,
    prefixes: &'a NamePrefixes,
    at: Spot,
    value: bool,
    part: &'a Part,
) -> Result<(), AllocError>
    ensures { OnOk result (draft.new
        ≡ part_tokens value (part_form prefixes.now part.now) draft.old) }
{
    match part {
        Part::Chars(text) => push_run(alloc, draft, value, text),
        Part::Enclosed(e) => {
            draft.push_key(Gap::Space, Key::CloseBrace)?;
            draft.push_part(prefixes, at.within(), LIST, e.get())?;
            draft.push(Gap::Space, Token::EnclosedOpen)
        }
        Part::Child(e) => {
            draft.push_expr(prefixes, at.within(), e.get())?;
            draft.make_inner()
        }
    }
}

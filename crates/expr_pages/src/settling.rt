// Drafts that are written until all of them is tokens.
ghost use Rattle.std.specs.Prelude.{◌≡◌, ◌++◌, [], false, OnOk, IfOk};
ghost use Rattle.expr_raws.specs.PathRaws.Forms.{said};
ghost use Rattle.expr_raws.specs.Raws.{form_of, tokens_of};
ghost use Rattle.expr_drafts.specs.Written.{said_tokens, part_tokens};
ghost use Rattle.expr_pages.specs.Standing.{tokens_in};

use crate::forms::push_form;
use expr_drafts::expr_places::Operand;
use expr_drafts::name_prefixes::NamePrefixes;
use expr_drafts::{Draft, Item, Part, Spot};
use expr_terms::{Key, Token};
use query_pages::{Gap, Page};
use std::alloc::{AllocError, Global};
use xt_syntax::Expr;

/// A token, and what is wanted before it.
#[derive(Drop)]
pub(crate) struct Standing {
    pub(crate) gap: Gap,
    pub(crate) token: Token,
}

/// How tightly it binds: its place.
fn place_of(prefixes: &NamePrefixes, e: &Expr) -> u8
    ensures { result ≡ (form_of prefixes.now e.now).place }
{
    let operand = Operand {
        prefixes: prefixes.plain(),
        e,
    };
    operand.place()
}

/// In parentheses where it binds more loosely than the place.
fn push_said<'a>(
    alloc: Global,
    draft: &mut Draft<'a>,
    prefixes: &'a NamePrefixes,
    at: Spot,
    place: u8,
    e: &'a Expr,
) -> Result<(), AllocError>
    ensures { OnOk result (draft.new ≡ said place (form_of prefixes.now e.now) draft.old) }
{
    if place_of(prefixes, e) <= place {
        return push_form(alloc, draft, prefixes, at, e);
    }
    draft.push_key(Gap::Space, Key::CloseParen)?;
    push_form(alloc, draft, prefixes, at.part(), e)?;
    draft.push_key(at.first, Key::OpenParen)
}

/// Where it stands.
fn push_limited<'a>(alloc: Global, draft: &mut Draft<'a>, part: &Part<'a>) -> Result<(), AllocError>
    ensures { OnOk result (draft.new ≡ said_tokens part.now draft.old) }
{
    match part.place {
        None => push_form(alloc, draft, part.prefixes, part.at, part.e),
        Some(place) => push_said(alloc, draft, part.prefixes, part.at, place, part.e),
    }
}

/// Puts the tokens of an expression that waits.
fn push_whole<'a>(alloc: Global, draft: &mut Draft<'a>, part: &Part<'a>) -> Result<(), AllocError>
    ensures { OnOk result (draft.new ≡ part_tokens part.now draft.old) }
{
    push_limited(alloc, draft, part)?;
    if part.inner {
        return draft.make_inner();
    }
    Ok(())
}

/// Takes the first item: a token comes after those that do, an expression is written. Whether
/// there was an item.
fn step(
    alloc: Global,
    draft: &mut Draft<'_>,
    standing: &mut Vec<Standing>,
) -> Result<bool, AllocError>
    ensures same { OnOk result (tokens_in standing.new.items ++ draft.new
        ≡ tokens_in standing.old.items ++ draft.old) }
    ensures done { IfOk result (λ more. more ≡ false → draft.new ≡ []) }
{
    match draft.pop() {
        None => Ok(false),
        Some(Item::Token(gap, token)) => {
            standing.push(Standing { gap, token })?;
            Ok(true)
        }
        Some(Item::Part(part)) => {
            push_whole(alloc, draft, &part)?;
            Ok(true)
        }
    }
}

/// Writes all of the draft. So many steps as would pass a number of 64 bits count as want of
/// memory.
fn settle(
    alloc: Global,
    draft: &mut Draft<'_>,
    standing: &mut Vec<Standing>,
) -> Result<(), AllocError>
    ensures { OnOk result (tokens_in standing.new.items
        ≡ tokens_in standing.old.items ++ draft.old) }
{
    for _ in 0..u64::MAX {
        let more = step(alloc, draft, standing)?;
        if !more {
            return Ok(());
        }
    }
    Err(AllocError)
}

/// Puts the tokens before those of the page.
fn fill(page: &mut Page, standing: &mut Vec<Standing>) -> Result<(), AllocError>
    ensures { OnOk result (page.new ≡ tokens_in standing.old.items ++ page.old) }
{
    while let Some(last) = standing.pop() {
        page.push(last.gap, last.token)?;
    }
    Ok(())
}

/// The page of the tokens that the draft stands for.
/// (XPath 2.0, A; XQuery 1.0, A)
pub fn settled(alloc: Global, draft: &mut Draft<'_>) -> Result<Page, AllocError>
    ensures { IfOk result (λ page. page ≡ draft.old) }
{
    let mut standing = Vec::new(alloc);
    settle(alloc, draft, &mut standing)?;
    let mut page = Page::new(alloc);
    fill(&mut page, &mut standing)?;
    Ok(page)
}

/// The page of the tokens of the expression under the prefixes.
/// (XPath 2.0, A; XQuery 1.0, A)
pub fn expr_page(
    alloc: Global,
    prefixes: &NamePrefixes,
    at: Spot,
    e: &Expr,
) -> Result<Page, AllocError>
    ensures { IfOk result (λ page. page ≡ tokens_of prefixes.now e.now) }
{
    let mut draft = Draft::new(alloc);
    draft.push_expr(prefixes, at, e)?;
    settled(alloc, &mut draft)
}

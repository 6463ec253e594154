// Calls, steps and paths on a draft.
ghost use Rattle.std.specs.Prelude.{◌≡◌, map, OnOk};
ghost use Rattle.expr_raws.specs.PathRaws.Paths.{predicates, slashed, filtered, call, stepped, root_form};
ghost use Rattle.expr_raws.specs.Raws.{form_of};

use crate::leaf_pages::{axis_key, push_test};
use crate::operator_drafts::lists::push_items;
use crate::operator_drafts::operators::push_pair;
use expr_drafts::expr_places::{LIST, PRIMARY, STEP, is_root, slash};
use expr_drafts::name_prefixes::NamePrefixes;
use expr_drafts::name_tokens::function_token;
use expr_drafts::{Draft, Spot};
use expr_terms::Key;
use query_pages::Gap;
use std::alloc::{AllocError, Global};
use xt_names::ExprName;
use xt_syntax::Expr;
use xt_types::{Axis, Test};

/// `/` alone, in parentheses.
/// (XPath 2.0, 3.2)
pub fn push_root(draft: &mut Draft<'_>, first: Gap) -> Result<(), AllocError>
    ensures { OnOk result (draft.new ≡ root_form.tokens draft.old) }
{
    draft.push_key(Gap::Space, Key::CloseParen)?;
    draft.push_key(Gap::Space, Key::Slash)?;
    draft.push_key(first, Key::OpenParen)
}

/// `f(a, ..)`.
pub fn push_call<'a>(
    alloc: Global,
    draft: &mut Draft<'a>,
    prefixes: &'a NamePrefixes,
    at: Spot,
    name: &ExprName,
    args: &'a [Expr],
) -> Result<(), AllocError>
    ensures { OnOk result (draft.new ≡ (call prefixes.now name.now
        (map (form_of prefixes.now) args.now)).tokens draft.old) }
{
    let plain = prefixes.plain();
    match function_token(alloc, prefixes, &plain.function_default, name)? {
        None => Ok(()),
        Some(token) => {
            draft.push_key(Gap::Space, Key::CloseParen)?;
            push_items(draft, prefixes, at.soft_part(), args)?;
            draft.push_key(Gap::Space, Key::OpenParen)?;
            draft.push(at.first, token)
        }
    }
}

/// `[p]..`.
fn push_predicates<'a>(
    draft: &mut Draft<'a>,
    prefixes: &'a NamePrefixes,
    at: Spot,
    tests: &'a [Expr],
) -> Result<(), AllocError>
    ensures { OnOk result (draft.new
        ≡ predicates (map (form_of prefixes.now) tests.now) draft.old) }
{
    let mut left = tests.len();
    while left > 0 {
        left -= 1;
        draft.push_key(Gap::Space, Key::CloseBracket)?;
        draft.push_part(prefixes, at.part(), LIST, &tests[left])?;
        draft.push_key(Gap::Space, Key::OpenBracket)?;
    }
    Ok(())
}

/// `axis::test[p]..`.
pub fn push_step<'a>(
    alloc: Global,
    draft: &mut Draft<'a>,
    prefixes: &'a NamePrefixes,
    at: Spot,
    axis: Axis,
    test: &Test,
    tests: &'a [Expr],
) -> Result<(), AllocError>
    ensures { OnOk result (draft.new ≡ (stepped prefixes.now axis test.now
        (map (form_of prefixes.now) tests.now)).tokens draft.old) }
{
    push_predicates(draft, prefixes, at, tests)?;
    push_test(alloc, draft, prefixes, Gap::Space, axis, test)?;
    draft.push_key(Gap::Space, Key::Colons)?;
    draft.push_key(at.first, axis_key(axis))
}

/// `a[p]..`; nothing where there are no predicates.
pub fn push_filter<'a>(
    draft: &mut Draft<'a>,
    prefixes: &'a NamePrefixes,
    at: Spot,
    of: &'a Expr,
    tests: &'a [Expr],
) -> Result<(), AllocError>
    ensures { OnOk result (draft.new ≡ (filtered (form_of prefixes.now of.now)
        (map (form_of prefixes.now) tests.now)).tokens draft.old) }
{
    match tests {
        [] => Ok(()),
        _ => {
            push_predicates(draft, prefixes, at, tests)?;
            draft.push_part(prefixes, at, PRIMARY, of)
        }
    }
}

/// `a/b`, or `/b` where `a` is the root.
pub fn push_slash<'a>(
    draft: &mut Draft<'a>,
    prefixes: &'a NamePrefixes,
    at: Spot,
    a: &'a Expr,
    b: &'a Expr,
) -> Result<(), AllocError>
    ensures { OnOk result (draft.new ≡ (slashed (form_of prefixes.now a.now)
        (form_of prefixes.now b.now)).tokens draft.old) }
{
    if is_root(a) {
        draft.push_part(prefixes, at.part(), STEP, b)?;
        draft.push_key(at.first, Key::Slash)?;
        return Ok(());
    }
    push_pair(draft, prefixes, at, slash(), a, b)?;
    Ok(())
}

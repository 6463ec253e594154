// Lists of expressions on a draft.
ghost use Rattle.std.specs.Prelude.{◌≡◌, ◌≤◌, ◌∷◌, drop, length, map, OnOk};
ghost use Rattle.expr_keys.specs.declared.keys.Key.TheVariants as key_of;
ghost use Rattle.expr_keys.specs.declared.tokens.Token.TheVariants as token_of;
ghost use Rattle.expr_raws.specs.PathRaws.Forms.{single, all_said};
ghost use Rattle.expr_raws.specs.ControlRaws.Operators.{tails, listed, many};
ghost use Rattle.expr_raws.specs.Raws.{form_of};

use expr_drafts::expr_places::SINGLE;
use expr_drafts::name_prefixes::NamePrefixes;
use expr_drafts::{Draft, Spot, push_comma};
use expr_terms::{Key, Level, tight};
use query_pages::Gap;
use std::alloc::AllocError;
use xt_syntax::Expr;

/// `()`.
fn push_empty(draft: &mut Draft<'_>, first: Gap) -> Result<(), AllocError>
    ensures { OnOk result (draft.new
        ≡ token_of.Key key_of.OpenParen ∷ token_of.Key key_of.CloseParen ∷ draft.old) }
{
    draft.push_key(Gap::Space, Key::CloseParen)?;
    draft.push_key(first, Key::OpenParen)
}

/// With commas between them.
pub(crate) fn push_items<'a>(
    draft: &mut Draft<'a>,
    prefixes: &'a NamePrefixes,
    at: Spot,
    items: &'a [Expr],
) -> Result<(), AllocError>
    ensures { OnOk result (draft.new
        ≡ all_said single (map (form_of prefixes.now) items.now) draft.old) }
{
    let mut left = items.len();
    while left > 0 {
        left -= 1;
        push_comma(draft, left, items.len())?;
        draft.push_part(prefixes, at.listed(left), SINGLE, &items[left])?;
    }
    Ok(())
}

/// A list of no or of several items; nothing where there is one.
pub fn push_list<'a>(
    draft: &mut Draft<'a>,
    prefixes: &'a NamePrefixes,
    at: Spot,
    items: &'a [Expr],
) -> Result<(), AllocError>
    ensures { OnOk result (draft.new
        ≡ (listed (map (form_of prefixes.now) items.now)).tokens draft.old) }
{
    match items {
        [] => push_empty(draft, at.first),
        [_] => Ok(()),
        _ => push_items(draft, prefixes, at, items),
    }
}

/// Operands after the first, each after the operator.
fn push_tails<'a>(
    draft: &mut Draft<'a>,
    prefixes: &'a NamePrefixes,
    at: Spot,
    level: Level,
    key: Key,
    items: &'a [Expr],
) -> Result<(), AllocError>
    requires { 1 ≤ length items.now }
    ensures { OnOk result (draft.new
        ≡ tails level key (map (form_of prefixes.now) (drop 1 items.now)) draft.old) }
{
    let mut left = items.len();
    while left > 1 {
        left -= 1;
        draft.push_part(prefixes, at.part(), tight(level), &items[left])?;
        draft.push_key(at.soft(), key)?;
    }
    Ok(())
}

/// `or` or `and` between two operands or more; nothing where there are fewer.
pub fn push_many<'a>(
    draft: &mut Draft<'a>,
    prefixes: &'a NamePrefixes,
    at: Spot,
    level: Level,
    key: Key,
    items: &'a [Expr],
) -> Result<(), AllocError>
    ensures { OnOk result (draft.new
        ≡ (many level key (map (form_of prefixes.now) items.now)).tokens draft.old) }
{
    if items.len() < 2 {
        return Ok(());
    }
    push_tails(draft, prefixes, at, level, key, items)?;
    draft.push_part(prefixes, at, tight(level), &items[0])?;
    Ok(())
}

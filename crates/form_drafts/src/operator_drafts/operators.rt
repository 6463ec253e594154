// Operators on a draft.
ghost use Rattle.std.specs.Prelude.{◌≡◌, ◌∷◌, OnOk};
ghost use Rattle.expr_keys.specs.declared.keys.Key.TheVariants as key_of;
ghost use Rattle.expr_keys.specs.declared.productions.Level.TheVariants as level_of;
ghost use Rattle.expr_keys.specs.declared.tokens.Token.TheVariants as token_of;
ghost use Rattle.expr_raws.specs.PathRaws.Forms.{said};
ghost use Rattle.expr_raws.specs.ControlRaws.Operators.{once, left, arithmetic, signed};
ghost use Rattle.expr_raws.specs.ControlRaws.Types.{of_type, sequence_form, single_form};
ghost use Rattle.expr_raws.specs.Raws.{form_of};

use crate::leaf_pages::{push_single_type, push_type};
use expr_drafts::expr_places::{Operator, SIGNS, arithmetic, chained, once};
use expr_drafts::name_prefixes::NamePrefixes;
use expr_drafts::{Draft, Spot};
use expr_terms::{Key, Level, tight};
use query_pages::Gap;
use std::alloc::{AllocError, Global};
use xt_names::{ArithOp, AtomType};
use xt_syntax::Expr;
use xt_types::SeqType;

/// The two words of an operator on a type.
fn push_words(draft: &mut Draft<'_>, first: Key, second: Key) -> Result<(), AllocError>
    ensures { OnOk result (draft.new ≡ token_of.Key first ∷ token_of.Key second ∷ draft.old) }
{
    draft.push_key(Gap::Space, second)?;
    draft.push_key(Gap::Space, first)
}

/// Two operands.
pub(crate) fn push_pair<'a>(
    draft: &mut Draft<'a>,
    prefixes: &'a NamePrefixes,
    at: Spot,
    by: Operator,
    a: &'a Expr,
    b: &'a Expr,
) -> Result<(), AllocError>
    ensures { OnOk result (draft.new ≡ said by.left (form_of prefixes.now a.now)
        (token_of.Key by.key ∷ said by.right (form_of prefixes.now b.now) draft.old)) }
{
    draft.push_part(prefixes, at.part(), by.right, b)?;
    draft.push_key(at.soft(), by.key)?;
    draft.push_part(prefixes, at, by.left, a)
}

/// A comparison.
pub fn push_comparison<'a>(
    draft: &mut Draft<'a>,
    prefixes: &'a NamePrefixes,
    at: Spot,
    key: Key,
    a: &'a Expr,
    b: &'a Expr,
) -> Result<(), AllocError>
    ensures { OnOk result (draft.new ≡ (once level_of.Comparison key
        (form_of prefixes.now a.now) (form_of prefixes.now b.now)).tokens draft.old) }
{
    push_pair(draft, prefixes, at, once(Level::Comparison, key), a, b)
}

/// `a to b`.
pub fn push_range<'a>(
    draft: &mut Draft<'a>,
    prefixes: &'a NamePrefixes,
    at: Spot,
    a: &'a Expr,
    b: &'a Expr,
) -> Result<(), AllocError>
    ensures { OnOk result (draft.new ≡ (once level_of.Range key_of.ToWord
        (form_of prefixes.now a.now) (form_of prefixes.now b.now)).tokens draft.old) }
{
    push_pair(draft, prefixes, at, once(Level::Range, Key::ToWord), a, b)
}

pub fn push_arithmetic<'a>(
    draft: &mut Draft<'a>,
    prefixes: &'a NamePrefixes,
    at: Spot,
    op: ArithOp,
    a: &'a Expr,
    b: &'a Expr,
) -> Result<(), AllocError>
    ensures { OnOk result (draft.new ≡ (arithmetic op (form_of prefixes.now a.now)
        (form_of prefixes.now b.now)).tokens draft.old) }
{
    let by = arithmetic(prefixes.plain(), op, a);
    push_pair(draft, prefixes, at, by, a, b)?;
    Ok(())
}

/// An operator that may have others of its level at its left.
pub fn push_chained<'a>(
    draft: &mut Draft<'a>,
    prefixes: &'a NamePrefixes,
    at: Spot,
    level: Level,
    key: Key,
    a: &'a Expr,
    b: &'a Expr,
) -> Result<(), AllocError>
    ensures { OnOk result (draft.new ≡ (left level key (form_of prefixes.now a.now)
        (form_of prefixes.now b.now)).tokens draft.old) }
{
    let by = chained(prefixes.plain(), level, key, a);
    push_pair(draft, prefixes, at, by, a, b)?;
    Ok(())
}

/// `-a` or `+a`.
pub fn push_signed<'a>(
    draft: &mut Draft<'a>,
    prefixes: &'a NamePrefixes,
    at: Spot,
    key: Key,
    a: &'a Expr,
) -> Result<(), AllocError>
    ensures { OnOk result (draft.new
        ≡ (signed key (form_of prefixes.now a.now)).tokens draft.old) }
{
    draft.push_part(prefixes, at.part(), SIGNS, a)?;
    draft.push_key(at.first, key)
}

/// `a instance of T`.
pub fn push_instance<'a>(
    alloc: Global,
    draft: &mut Draft<'a>,
    prefixes: &'a NamePrefixes,
    at: Spot,
    a: &'a Expr,
    kind: &SeqType,
) -> Result<(), AllocError>
    ensures { OnOk result (draft.new ≡ (of_type level_of.InstanceOf
        (form_of prefixes.now a.now)
        (sequence_form prefixes.now kind.now)).tokens draft.old) }
{
    push_type(alloc, draft, prefixes, kind)?;
    push_words(draft, Key::InstanceWord, Key::OfWord)?;
    draft.push_part(prefixes, at, tight(Level::InstanceOf), a)
}

/// `a treat as T`.
pub fn push_treat<'a>(
    alloc: Global,
    draft: &mut Draft<'a>,
    prefixes: &'a NamePrefixes,
    at: Spot,
    a: &'a Expr,
    kind: &SeqType,
) -> Result<(), AllocError>
    ensures { OnOk result (draft.new ≡ (of_type level_of.Treat
        (form_of prefixes.now a.now)
        (sequence_form prefixes.now kind.now)).tokens draft.old) }
{
    push_type(alloc, draft, prefixes, kind)?;
    push_words(draft, Key::TreatWord, Key::AsWord)?;
    draft.push_part(prefixes, at, tight(Level::Treat), a)
}

/// `a castable as T`.
pub fn push_castable<'a>(
    alloc: Global,
    draft: &mut Draft<'a>,
    prefixes: &'a NamePrefixes,
    at: Spot,
    a: &'a Expr,
    kind: AtomType,
    empty: bool,
) -> Result<(), AllocError>
    ensures { OnOk result (draft.new ≡ (of_type level_of.Castable
        (form_of prefixes.now a.now)
        (single_form prefixes.now kind empty)).tokens draft.old) }
{
    push_single_type(alloc, draft, prefixes, kind, empty)?;
    push_words(draft, Key::CastableWord, Key::AsWord)?;
    draft.push_part(prefixes, at, tight(Level::Castable), a)
}

/// `a cast as T`.
pub fn push_cast<'a>(
    alloc: Global,
    draft: &mut Draft<'a>,
    prefixes: &'a NamePrefixes,
    at: Spot,
    a: &'a Expr,
    kind: AtomType,
    empty: bool,
) -> Result<(), AllocError>
    ensures { OnOk result (draft.new ≡ (of_type level_of.Cast
        (form_of prefixes.now a.now)
        (single_form prefixes.now kind empty)).tokens draft.old) }
{
    push_single_type(alloc, draft, prefixes, kind, empty)?;
    push_words(draft, Key::CastWord, Key::AsWord)?;
    draft.push_part(prefixes, at, tight(Level::Cast), a)
}

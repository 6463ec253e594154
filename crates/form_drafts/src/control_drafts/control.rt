// Conditionals, quantifiers and what binds variables on a draft.
ghost use Rattle.std.specs.Prelude.{◌≡◌, map, OnOk};
ghost use Rattle.expr_raws.specs.ControlRaws.Operators.{conditional, arms_tokens};
ghost use Rattle.expr_raws.specs.ControlRaws.Bindings.{quantifier, quantified, bind_tokens, binds_tokens};
ghost use Rattle.expr_raws.specs.ControlRaws.Bindings.{placing, placing_tokens};
ghost use Rattle.expr_raws.specs.Raws.{form_of};
ghost use Rattle.expr_drafts.specs.ExprPlaces.Forms.{arm_form, bind_form, arm_tokens};

use crate::leaf_pages::{push_typing, push_variable};
use expr_drafts::expr_places::{LIST, SINGLE};
use expr_drafts::name_prefixes::NamePrefixes;
use expr_drafts::{Draft, Spot, push_comma};
use expr_terms::Key;
use query_pages::Gap;
use std::alloc::{AllocError, Global};
use xt_names::ExprName;
use xt_syntax::{Arm, Bind, Expr};

fn quantifier(every: bool) -> Key
    ensures { result ≡ quantifier every }
{
    if every { Key::EveryWord } else { Key::SomeWord }
}

/// `if (a) then b else .. else c`.
pub fn push_if<'a>(
    draft: &mut Draft<'a>,
    prefixes: &'a NamePrefixes,
    at: Spot,
    arms: &'a [Arm],
    other: &'a Expr,
) -> Result<(), AllocError>
    ensures { OnOk result (draft.new ≡ (conditional (map (arm_form prefixes.now) arms.now)
        (form_of prefixes.now other.now)).tokens draft.old) }
{
    draft.push_part(prefixes, at.line_part(), SINGLE, other)?;
    push_arms(draft, prefixes, at, arms)
}

/// The arms, each with the `else` after it.
fn push_arms<'a>(
    draft: &mut Draft<'a>,
    prefixes: &'a NamePrefixes,
    at: Spot,
    arms: &'a [Arm],
) -> Result<(), AllocError>
    ensures { OnOk result (draft.new
        ≡ arms_tokens (map (arm_form prefixes.now) arms.now) draft.old) }
{
    let mut left = arms.len();
    while left > 0 {
        left -= 1;
        push_arm(draft, prefixes, at.arm(left), &arms[left])?;
    }
    Ok(())
}

/// `if (a) then b else`.
fn push_arm<'a>(
    draft: &mut Draft<'a>,
    prefixes: &'a NamePrefixes,
    at: Spot,
    arm: &'a Arm,
) -> Result<(), AllocError>
    ensures { OnOk result (draft.new
        ≡ arm_tokens (arm_form prefixes.now arm.now) draft.old) }
{
    draft.push_key(at.line(), Key::ElseWord)?;
    draft.push_part(prefixes, at.line_part(), SINGLE, arm.then.get())?;
    draft.push_key(Gap::Space, Key::ThenWord)?;
    draft.push_key(Gap::Space, Key::CloseParen)?;
    draft.push_part(prefixes, at.part(), LIST, arm.test.get())?;
    draft.push_key(Gap::Space, Key::OpenParen)?;
    draft.push_key(at.first, Key::IfWord)
}

/// `some $v in a, .. satisfies b`, or the same with `every`.
pub fn push_quant<'a>(
    alloc: Global,
    draft: &mut Draft<'a>,
    prefixes: &'a NamePrefixes,
    at: Spot,
    every: bool,
    binds: &'a [Bind],
    test: &'a Expr,
) -> Result<(), AllocError>
    ensures { OnOk result (draft.new ≡ (quantified every
        (map (bind_form prefixes.now) binds.now)
        (form_of prefixes.now test.now)).tokens draft.old) }
{
    draft.push_part(prefixes, at.part(), SINGLE, test)?;
    draft.push_key(at.soft(), Key::SatisfiesWord)?;
    push_binds(alloc, draft, prefixes, at, binds)?;
    draft.push_key(at.first, quantifier(every))
}

/// The variables of a quantifier, with commas between them.
fn push_binds<'a>(
    alloc: Global,
    draft: &mut Draft<'a>,
    prefixes: &'a NamePrefixes,
    at: Spot,
    binds: &'a [Bind],
) -> Result<(), AllocError>
    ensures { OnOk result (draft.new
        ≡ binds_tokens (map (bind_form prefixes.now) binds.now) draft.old) }
{
    let mut left = binds.len();
    while left > 0 {
        left -= 1;
        push_comma(draft, left, binds.len())?;
        push_bind(
            alloc,
            draft,
            prefixes,
            at.item(left),
            &None,
            Key::InWord,
            &binds[left],
        )?;
    }
    Ok(())
}

/// `at $p`, where there is one.
fn push_place<'a>(
    alloc: Global,
    draft: &mut Draft<'a>,
    prefixes: &'a NamePrefixes,
    place: &Option<ExprName>,
) -> Result<(), AllocError>
    ensures { OnOk result (draft.new
        ≡ placing_tokens (placing prefixes.now place.now) draft.old) }
{
    match place {
        None => Ok(()),
        Some(name) => {
            push_variable(alloc, draft, prefixes, Gap::Space, name)?;
            draft.push_key(Gap::Space, Key::AtWord)
        }
    }
}

/// A variable with its type, what comes after that, and what it is bound to.
pub(crate) fn push_bind<'a>(
    alloc: Global,
    draft: &mut Draft<'a>,
    prefixes: &'a NamePrefixes,
    at: Spot,
    place: &Option<ExprName>,
    key: Key,
    bind: &'a Bind,
) -> Result<(), AllocError>
    ensures { OnOk result (draft.new ≡ bind_tokens (placing prefixes.now place.now) key
        (bind_form prefixes.now bind.now) draft.old) }
{
    draft.push_part(prefixes, at.part(), SINGLE, bind.source.get())?;
    draft.push_key(Gap::Space, key)?;
    push_place(alloc, draft, prefixes, place)?;
    push_typing(alloc, draft, prefixes, &bind.kind)?;
    push_variable(alloc, draft, prefixes, at.first, &bind.var)
}

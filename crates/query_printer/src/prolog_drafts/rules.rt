// The text of the option `space`.
ghost use Rattle.std.specs.Prelude.{◌≡◌, ◌<◌, ◌≤◌, ◌+◌, ◌∷◌, [], ◌++◌, codes, if◌then◌else◌};
ghost use Rattle.std.specs.Prelude.{IfOk, OnOk};
ghost use Rattle.expr_keys.specs.declared.productions.Class.TheVariants as class_of;
ghost use Rattle.xt_types.specs.declared.axes.Axis.TheVariants as axis_of;
ghost use Rattle.expr_raws.specs.PathRaws.Names.{test_token};
ghost use Rattle.printed_laws.specs.QueryRaws.Prologs.{token_or, rule_text, rules_text};

use crate::prolog_drafts::words::{ascii_text, token_or};
use expr_drafts::name_prefixes::NamePrefixes;
use expr_drafts::name_tokens::test_token;
use expr_names::no_text;
use expr_terms::{Class, Token};
use query_pages::token_writer::push_token;
use std::alloc::{AllocError, Global};
use xt_names::{Text, TextBuilder};
use xt_types::{Axis, NameTest, SpaceRule};

/// The test as on an axis where a name without a prefix has no uri.
fn rule_token(alloc: Global, prefixes: &NamePrefixes, test: &NameTest) -> Result<Token, AllocError>
    ensures { IfOk result (λ token. token ≡ token_or
        (test_token class_of.NameTest prefixes.now.bound [] axis_of.Attribute test.now)) }
{
    let none = no_text(alloc)?;
    let class = Class::NameTest;
    let token = test_token(alloc, class, prefixes, &none, Axis::Attribute, test)?;
    Ok(token_or(token))
}

fn push_mode(alloc: Global, out: &mut TextBuilder, strip: bool) -> Result<(), AllocError>
    ensures { OnOk result (out.new
        ≡ out.old ++ (if strip then codes "strip" else codes "preserve")) }
{
    if strip {
        let word = ascii_text(alloc, "strip")?;
        out.push_text(&word)?;
        return Ok(());
    }
    let word = ascii_text(alloc, "preserve")?;
    out.push_text(&word)?;
    Ok(())
}

/// A word, and a test.
fn push_rule(
    alloc: Global,
    out: &mut TextBuilder,
    prefixes: &NamePrefixes,
    rule: &SpaceRule,
) -> Result<(), AllocError>
    ensures { OnOk result (out.new ≡ out.old ++ rule_text prefixes.now rule.now) }
{
    push_mode(alloc, out, rule.strip)?;
    out.push(' ')?;
    push_token(alloc, out, &rule_token(alloc, prefixes, &rule.test)?)
}

/// A space after the rule at the place, where more of so many follow.
fn push_gap(out: &mut TextBuilder, place: usize, count: usize) -> Result<(), AllocError>
    ensures between { place + 1 < count → OnOk result (out.new ≡ out.old ++ 32 ∷ []) }
    ensures last { count ≤ place + 1 → OnOk result (out.new ≡ out.old) }
{
    if place < count && count - place > 1 {
        return out.push(' ');
    }
    Ok(())
}

fn push_rules(
    alloc: Global,
    out: &mut TextBuilder,
    prefixes: &NamePrefixes,
    rules: &[SpaceRule],
) -> Result<(), AllocError>
    ensures { OnOk result (out.new ≡ out.old ++ rules_text prefixes.now rules.now) }
{
    let mut place = 0;
    while place < rules.len() {
        push_rule(alloc, out, prefixes, &rules[place])?;
        push_gap(out, place, rules.len())?;
        place += 1;
    }
    Ok(())
}

/// The text of the option `space` with these rules: pairs of a word and a test, with spaces between
/// them; each test as on an axis where a name without a prefix has no uri.
/// (XQuery 1.0, 4.16)
pub fn rules_text(
    alloc: Global,
    prefixes: &NamePrefixes,
    rules: &[SpaceRule],
) -> Result<Text, AllocError>
    ensures { IfOk result (λ text. text ≡ rules_text prefixes.now rules.now) }
{
    let mut out = TextBuilder::new(alloc);
    push_rules(alloc, &mut out, prefixes, rules)?;
    out.finish()
}

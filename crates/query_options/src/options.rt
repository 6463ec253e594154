ghost use Rattle.std.specs.Prelude.{◌≡◌, ◌++◌, []};
ghost use Rattle.expr_rules.specs.ExprMeant.Names.{written_in};
ghost use Rattle.expr_names.specs.Answers.{Answers};
ghost use Rattle.expr_names.specs.Names.{undeclared_in, expr_name};
ghost use Rattle.query_options.specs.Options.{no_options, twice_broken, omit_broken};
ghost use Rattle.query_options.specs.Options.{effect_of, effect_broken, option_broken};
ghost use Rattle.query_options.specs.Options.{with_effect, with_option};

use crate::effects::{Effect, effect_of};
use crate::rules::{refused, space_rules};
use bound_prefixes::BoundPrefixes;
use expr_names::xt_types::SpaceRule;
use expr_names::{ResolveFault, expr_name, no_text};
use expr_rules::expr_meant::written_in;
use expr_rules::expr_terms::Token;
use std::alloc::Global;
use xt_names::{ExprName, List, Text, is_ascii_text};

/// What the options so far mean.
/// (XQuery 1.0, 4.16)
#[derive(Drop)]
pub struct Options {
    /// Of which elements white space is stripped.
    pub rules: List<SpaceRule>,
    /// Whether the option `space` stands among them.
    pub has_space: bool,
    /// Whether `declaration` does: the XML declaration is left out.
    pub omit: bool,
}

/// No options. It takes no memory.
/// (XQuery 1.0, 4.16)
pub fn no_options(alloc: Global) -> Options
    ensures { result ≡ no_options }
{
    Options {
        rules: List::new(alloc),
        has_space: false,
        omit: false,
    }
}

fn check_once(seen: bool) -> Result<(), ResolveFault>
    ensures { Answers result (twice_broken seen) tt }
{
    if seen {
        return refused();
    }
    Ok(())
}

fn check_omit(text: &Text) -> Result<(), ResolveFault>
    ensures { Answers result (omit_broken text.now) tt }
{
    if is_ascii_text(text.as_str(), "omit") {
        return Ok(());
    }
    refused()
}

fn option_name(alloc: Global, bound: &BoundPrefixes, name: &Token) -> Result<ExprName, ResolveFault>
    ensures { Answers result (undeclared_in bound.now (written_in name.now))
        (expr_name bound.now [] (written_in name.now)) }
{
    let none = no_text(alloc)?;
    let written = written_in(alloc, name)?;
    expr_name(alloc, bound, &none, &written)
}

#[tactic(auto, using(expr_names::proofs::Follow::fault_first, expr_names::proofs::Follow::fault_next), unfolding(crate::specs::Options::effect_broken, crate::specs::Options::with_effect))]
fn with_effect(
    alloc: Global,
    bound: &BoundPrefixes,
    seen: Options,
    text: &Text,
    effect: Effect,
) -> Result<Options, ResolveFault>
    ensures { Answers result (effect_broken bound.now seen text.now effect)
        (with_effect bound.now seen text.now effect) }
{
    match effect {
        Effect::Space => {
            check_once(seen.has_space)?;
            Ok(Options {
                rules: space_rules(alloc, bound, text)?,
                has_space: true,
                omit: seen.omit,
            })
        }
        Effect::Declaration => {
            check_once(seen.omit)?;
            check_omit(text)?;
            Ok(Options { omit: true, ..seen })
        }
        Effect::Nothing => Ok(seen),
    }
}

/// What the options mean with one more. XPST0081 where the prefix of its name is not declared, and
/// then, where it is `space` or `declaration` in the namespace `urn:xslt2xq`, XTOP0001 where it
/// stands twice or its text is not taken.
/// (XQuery 1.0, 4.16)
#[tactic(auto, using(expr_names::proofs::Follow::fault_first, expr_names::proofs::Follow::fault_next))]
pub fn with_option(
    alloc: Global,
    bound: &BoundPrefixes,
    seen: Options,
    name: &Token,
    text: &Text,
) -> Result<Options, ResolveFault>
    ensures { Answers result (option_broken bound.now seen name.now text.now)
        (with_option bound.now seen name.now text.now) }
{
    let named = option_name(alloc, bound, name)?;
    with_effect(alloc, bound, seen, text, effect_of(&named))
}

// What each production means, and the rules on its parts.
ghost use Rattle.std.specs.Prelude.{◌≡◌, [], IfOk};
ghost use Rattle.expr_primaries.specs.ExprNames.Answers.{Answers};
ghost use Rattle.expr_resolve.specs.Tables.{act, own, end, value_in, before_last};

use crate::families::{Family, family_of};
use crate::setting::Setting;
use expr_control::control_value;
use expr_primaries::expr_elements::element_value;
use expr_primaries::expr_names::ResolveFault;
use expr_primaries::expr_paths::path_value;
use expr_primaries::expr_rules::expr_meant::Meant;
use expr_primaries::expr_rules::{doubles_rule, end_rule, own_rule};
use expr_terms::Production;
use std::alloc::{AllocError, Global};

#[tactic(auto, unfolding(crate::specs::Tables::value_in))]
fn value_in(
    family: Family,
    alloc: Global,
    s: &Setting,
    production: Production,
    parts: &[Meant],
) -> Result<Meant, AllocError>
    ensures { IfOk result (λ made. made ≡ value_in family s.now production parts.now) }
{
    match family {
        Family::Paths => path_value(alloc, &s.prefixes, production, parts),
        Family::Control => control_value(alloc, &s.prefixes, production, parts),
        Family::Elements => element_value(alloc, &s.prefixes, s.strip, production, parts),
    }
}

/// What the production means, from what its parts mean.
pub(crate) fn act(
    alloc: Global,
    s: &Setting,
    production: Production,
    parts: &[Meant],
) -> Result<Meant, AllocError>
    ensures { IfOk result (λ made. made ≡ act s.now production parts.now) }
{
    value_in(family_of(production), alloc, s, production, parts)
}

/// The rules on a part.
pub(crate) fn own(
    alloc: Global,
    s: &Setting,
    production: Production,
    first: bool,
    part: &Meant,
) -> Result<(), ResolveFault>
    ensures { Answers result (own s.now production first part.now) tt }
{
    own_rule(alloc, &s.prefixes.bound, production, first, part)
}

/// The rules on all parts.
pub(crate) fn end(
    alloc: Global,
    s: &Setting,
    production: Production,
    parts: &[Meant],
) -> Result<(), ResolveFault>
    ensures { Answers result (end s.now production parts.now) tt }
{
    let bound = &s.prefixes.bound;
    end_rule(
        alloc,
        bound,
        &s.prefixes.function_default,
        production,
        parts,
    )
}

/// The rules on the parts before the last one.
#[tactic(auto, unfolding(crate::specs::Tables::before_last))]
pub(crate) fn before_last(
    alloc: Global,
    is_tag: bool,
    last: bool,
    parts: &[Meant],
) -> Result<(), ResolveFault>
    ensures { Answers result (before_last is_tag last parts.now) tt }
{
    if is_tag {
        if last {
            return doubles_rule(alloc, parts);
        }
    }
    Ok(())
}

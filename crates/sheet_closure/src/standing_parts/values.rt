// What attributes, names, sorts and groups hold.
ghost use Rattle.std.specs.Prelude.{◌≡◌, IfOk};
ghost use Rattle.std.specs.List.{list_all};
ghost use Rattle.sheet_closure.specs.StandingParts.Values.{if_expr_stands, part_stands, template_stands};
ghost use Rattle.sheet_closure.specs.StandingParts.Values.{if_template_stands, attribute_stands, sort_stands};
ghost use Rattle.sheet_closure.specs.StandingParts.Values.{grouping_stands};

use crate::standing_parts::calls::expr_stands;
use crate::standing_parts::patterns::are_alternatives;
use std::alloc::{AllocError, Global};
use xt_names::Shared;
use xt_sheets::{Avt, AvtPart, Grouping, LiteralAttr, Sort};
use xt_syntax::Expr;

#[tactic(auto, unfolding(crate::specs::StandingParts::Values::if_expr_stands))]
pub(crate) fn if_expr_stands(
    alloc: Global,
    grouped: bool,
    e: &Option<Shared<Expr>>,
) -> Result<bool, AllocError>
    ensures { IfOk result (λ stands. stands ≡ if_expr_stands grouped e.now) }
{
    match e {
        None => Ok(true),
        Some(e) => expr_stands(alloc, grouped, e.get()),
    }
}

#[tactic(auto, unfolding(crate::specs::StandingParts::Values::part_stands))]
fn part_stands(alloc: Global, grouped: bool, part: &AvtPart) -> Result<bool, AllocError>
    ensures { IfOk result (λ stands. stands ≡ part_stands grouped part.now) }
{
    match part {
        AvtPart::Chars(_) => Ok(true),
        AvtPart::Code(e) => expr_stands(alloc, grouped, e.get()),
    }
}

pub(crate) fn template_stands(alloc: Global, grouped: bool, parts: &Avt) -> Result<bool, AllocError>
    ensures { IfOk result (λ stands. stands ≡ template_stands grouped parts.now) }
{
    for part in parts.as_slice() {
        if !part_stands(alloc, grouped, part)? {
            return Ok(false);
        }
    }
    Ok(true)
}

#[tactic(auto, unfolding(crate::specs::StandingParts::Values::if_template_stands))]
pub(crate) fn if_template_stands(
    alloc: Global,
    grouped: bool,
    parts: &Option<Shared<Avt>>,
) -> Result<bool, AllocError>
    ensures { IfOk result (λ stands. stands ≡ if_template_stands grouped parts.now) }
{
    match parts {
        None => Ok(true),
        Some(parts) => template_stands(alloc, grouped, parts.get()),
    }
}

pub(crate) fn attributes_stand(
    alloc: Global,
    grouped: bool,
    all: &[LiteralAttr],
) -> Result<bool, AllocError>
    ensures { IfOk result (λ stand. stand ≡ list_all (attribute_stands grouped) all.now) }
{
    for attr in all {
        if !template_stands(alloc, grouped, attr.value.get())? {
            return Ok(false);
        }
    }
    Ok(true)
}

pub(crate) fn sorts_stand(alloc: Global, grouped: bool, all: &[Sort]) -> Result<bool, AllocError>
    ensures { IfOk result (λ stand. stand ≡ list_all (sort_stands grouped) all.now) }
{
    for sort in all {
        if !expr_stands(alloc, grouped, sort.key.get())? {
            return Ok(false);
        }
    }
    Ok(true)
}

#[tactic(auto, unfolding(crate::specs::StandingParts::Values::grouping_stands))]
pub(crate) fn grouping_stands(
    alloc: Global,
    grouped: bool,
    grouping: &Grouping,
) -> Result<bool, AllocError>
    ensures { IfOk result (λ stands. stands ≡ grouping_stands grouped grouping.now) }
{
    match grouping {
        Grouping::By(e) => expr_stands(alloc, grouped, e.get()),
        Grouping::Adjacent(e) => expr_stands(alloc, grouped, e.get()),
        Grouping::Starting(patterns) => Ok(are_alternatives(patterns.get().as_slice())),
    }
}

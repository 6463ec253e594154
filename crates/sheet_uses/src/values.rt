// What the values of attributes, sort keys and groupings use.
ghost use Rattle.std.specs.Prelude.{◌≡◌, OnOk, map};
ghost use Rattle.sheet_uses.specs.Exprs.{all_in};
ghost use Rattle.sheet_uses.specs.Values.{if_expr, if_template, part_uses, template_uses};
ghost use Rattle.sheet_uses.specs.Values.{attribute_uses, sort_uses, grouping_uses};

use crate::exprs::push_expr_uses;
use crate::uses::Use;
use name_rules::VariableScope;
use std::alloc::AllocError;
use xt_names::{List, Shared};
use xt_sheets::{Avt, AvtPart, Grouping, LiteralAttr, Sort};
use xt_syntax::Expr;

pub(crate) fn push_if_expr(
    e: &Option<Shared<Expr>>,
    scope: &VariableScope,
    found: &mut List<Use>,
) -> Result<(), AllocError>
    ensures { OnOk result (found.new ≡ if_expr e.now scope.now found.old) }
{
    match e {
        None => Ok(()),
        Some(e) => push_expr_uses(e.get(), scope, found),
    }
}

#[tactic(auto, unfolding(crate::specs::Values::part_uses))]
fn push_part(part: &AvtPart, scope: &VariableScope, found: &mut List<Use>) -> Result<(), AllocError>
    ensures { OnOk result (found.new ≡ part_uses part.now scope.now found.old) }
{
    match part {
        AvtPart::Chars(_) => Ok(()),
        AvtPart::Code(e) => push_expr_uses(e.get(), scope, found),
    }
}

pub(crate) fn push_template(
    template: &Avt,
    scope: &VariableScope,
    found: &mut List<Use>,
) -> Result<(), AllocError>
    ensures { OnOk result (found.new ≡ template_uses template.now scope.now found.old) }
{
    for part in template.as_slice() {
        push_part(part, scope, found)?;
    }
    Ok(())
}

pub(crate) fn push_if_template(
    template: &Option<Shared<Avt>>,
    scope: &VariableScope,
    found: &mut List<Use>,
) -> Result<(), AllocError>
    ensures { OnOk result (found.new ≡ if_template template.now scope.now found.old) }
{
    match template {
        None => Ok(()),
        Some(template) => push_template(template.get(), scope, found),
    }
}

pub(crate) fn push_attributes(
    attributes: &[LiteralAttr],
    scope: &VariableScope,
    found: &mut List<Use>,
) -> Result<(), AllocError>
    ensures { OnOk result (found.new
        ≡ all_in (map attribute_uses attributes.now) scope.now found.old) }
{
    for attribute in attributes {
        push_template(attribute.value.get(), scope, found)?;
    }
    Ok(())
}

pub(crate) fn push_sorts(
    sorts: &[Sort],
    scope: &VariableScope,
    found: &mut List<Use>,
) -> Result<(), AllocError>
    ensures { OnOk result (found.new ≡ all_in (map sort_uses sorts.now) scope.now found.old) }
{
    for sort in sorts {
        push_expr_uses(sort.key.get(), scope, found)?;
    }
    Ok(())
}

#[tactic(auto, unfolding(crate::specs::Values::grouping_uses))]
pub(crate) fn push_grouping(
    grouping: &Grouping,
    scope: &VariableScope,
    found: &mut List<Use>,
) -> Result<(), AllocError>
    ensures { OnOk result (found.new ≡ grouping_uses grouping.now scope.now found.old) }
{
    match grouping {
        Grouping::By(e) | Grouping::Adjacent(e) => push_expr_uses(e.get(), scope, found),
        Grouping::Starting(_) => Ok(()),
    }
}

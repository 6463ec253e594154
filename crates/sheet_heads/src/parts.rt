// Rules and parts that several elements have.
ghost use Rattle.std.specs.Prelude.{◌≡◌, [], IfOk, codes};
ghost use Rattle.expr_names.specs.Answers.{Answers};
ghost use Rattle.xt_names.specs.ExprNames.{uri_of};
ghost use Rattle.sheet_table.specs.Attributes.{attribute};
ghost use Rattle.sheet_values.specs.Rules.{broken};
ghost use Rattle.sheet_heads.specs.Attributes.{needed_faults};
ghost use Rattle.sheet_values.specs.SheetTexts.Templates.{template_faults};
ghost use Rattle.sheet_heads.specs.Parts.{both_broken, computed_name};

use crate::attributes::needed_template;
use bound_prefixes::BoundPrefixes;
use expr_names::{ResolveFault, no_text, uri_of};
use sheet_table::has;
use sheet_values::sheet_fault;
use sheet_values::sheet_texts::{Reader, StaticContext};
use std::alloc::{AllocError, Global};
use xt_names::{SheetStaticCode, Text};
use xt_sheets::values::AvtName;
use xt_tree::Attribute;

/// Refuses where the rule is broken (XSLT 2.0, 2.9).
pub fn refuse_if(code: SheetStaticCode, is_broken: bool) -> Result<(), ResolveFault>
    ensures { Answers result (broken code is_broken) tt }
{
    if is_broken {
        return Err(sheet_fault(code));
    }
    Ok(())
}

/// Refuses `select` beside content.
pub(crate) fn check_one(
    code: SheetStaticCode,
    attributes: &[Attribute],
    has_content: bool,
) -> Result<(), ResolveFault>
    ensures { Answers result (both_broken code attributes.now has_content) tt }
{
    refuse_if(code, has(attributes, "select") && has_content)
}

/// The uri of names without prefix, which is the empty text where none is declared (Namespaces in
/// XML 1.0, 6.2).
pub fn default_uri(alloc: Global, bound: &BoundPrefixes) -> Result<Text, AllocError>
    ensures { IfOk result (λ uri. uri ≡ uri_of bound.now []) }
{
    let none = no_text(alloc)?;
    uri_of(alloc, bound, &none)
}

/// The name in the attribute `name` that is computed when the instruction runs.
pub(crate) fn computed_name<R: Reader>(
    alloc: Global,
    reader: &R,
    place: &StaticContext,
    attributes: &[Attribute],
    default_uri: Text,
) -> Result<AvtName<R::Expr>, ResolveFault>
    ensures { Answers result
        (needed_faults (template_faults (R.reads reader.now) place.now)
        (attribute attributes.now (codes "name")))
        (computed_name (R.reads reader.now) place.now attributes.now default_uri) }
{
    let text = needed_template(alloc, reader, place, attributes, "name")?;
    let scope = place.bound.bindings()?;
    Ok(AvtName {
        text,
        scope,
        default_uri,
    })
}

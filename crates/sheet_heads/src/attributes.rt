// Texts in attributes, which may have to stand.
ghost use Rattle.std.specs.Prelude.{IsTrue};
ghost use Rattle.expr_names.specs.Answers.{Answers};
ghost use Rattle.sheet_table.specs.Attributes.{attribute};
ghost use Rattle.sheet_table.specs.Texts.{is_ascii};
ghost use Rattle.sheet_heads.specs.Attributes.{optional_faults, optional_value};
ghost use Rattle.sheet_heads.specs.Attributes.{needed_faults, needed_value};
ghost use Rattle.sheet_values.specs.SheetTexts.Templates.{template_faults, template_value};

use expr_names::ResolveFault;
use sheet_table::attribute;
use sheet_values::sheet_fault;
use sheet_values::sheet_texts::{Reader, StaticContext, template};
use std::alloc::Global;
use xt_names::{Shared, SheetStaticCode};
use xt_sheets::values::Avt;
use xt_tree::Attribute;
use xt_types::SeqType;

/// The expression in the attribute, where it stands (XSLT 2.0, 5.3).
pub fn optional_expr<R: Reader>(
    alloc: Global,
    reader: &R,
    place: &StaticContext,
    attributes: &[Attribute],
    local: &str,
) -> Result<Option<Shared<R::Expr>>, ResolveFault>
    requires { IsTrue (is_ascii local.now) }
    ensures { Answers result
        (optional_faults ((R.reads reader.now).expr_faults place.now)
        (attribute attributes.now local.now))
        (optional_value ((R.reads reader.now).expr_value place.now)
        (attribute attributes.now local.now)) }
{
    match attribute(attributes, local) {
        None => Ok(None),
        Some(text) => Ok(Some(reader.expr(alloc, place, text)?)),
    }
}

/// The expression in the attribute; XTSE0010 where it does not stand (XSLT 2.0, 5.3).
pub fn needed_expr<R: Reader>(
    alloc: Global,
    reader: &R,
    place: &StaticContext,
    attributes: &[Attribute],
    local: &str,
) -> Result<Shared<R::Expr>, ResolveFault>
    requires { IsTrue (is_ascii local.now) }
    ensures { Answers result
        (needed_faults ((R.reads reader.now).expr_faults place.now)
        (attribute attributes.now local.now))
        (needed_value ((R.reads reader.now).expr_value place.now)
        (attribute attributes.now local.now)) }
{
    match attribute(attributes, local) {
        None => Err(sheet_fault(SheetStaticCode::XTSE0010)),
        Some(text) => reader.expr(alloc, place, text),
    }
}

/// The template in the attribute, where it stands (XSLT 2.0, 5.6).
pub fn optional_template<R: Reader>(
    alloc: Global,
    reader: &R,
    place: &StaticContext,
    attributes: &[Attribute],
    local: &str,
) -> Result<Option<Shared<Avt<R::Expr>>>, ResolveFault>
    requires { IsTrue (is_ascii local.now) }
    ensures { Answers result
        (optional_faults (template_faults (R.reads reader.now) place.now)
        (attribute attributes.now local.now))
        (optional_value (template_value (R.reads reader.now) place.now)
        (attribute attributes.now local.now)) }
{
    match attribute(attributes, local) {
        None => Ok(None),
        Some(text) => {
            let made = template(alloc, reader, place, text)?;
            Ok(Some(Shared::make(alloc, made)?))
        }
    }
}

/// The template in the attribute; XTSE0010 where it does not stand (XSLT 2.0, 5.6).
pub fn needed_template<R: Reader>(
    alloc: Global,
    reader: &R,
    place: &StaticContext,
    attributes: &[Attribute],
    local: &str,
) -> Result<Shared<Avt<R::Expr>>, ResolveFault>
    requires { IsTrue (is_ascii local.now) }
    ensures { Answers result
        (needed_faults (template_faults (R.reads reader.now) place.now)
        (attribute attributes.now local.now))
        (needed_value (template_value (R.reads reader.now) place.now)
        (attribute attributes.now local.now)) }
{
    match attribute(attributes, local) {
        None => Err(sheet_fault(SheetStaticCode::XTSE0010)),
        Some(text) => {
            let made = template(alloc, reader, place, text)?;
            let made = Shared::make(alloc, made)?;
            Ok(made)
        }
    }
}

/// The type in the attribute, where it stands (XSLT 2.0, 9.3).
pub fn optional_type<R: Reader>(
    alloc: Global,
    reader: &R,
    place: &StaticContext,
    attributes: &[Attribute],
    local: &str,
) -> Result<Option<SeqType>, ResolveFault>
    requires { IsTrue (is_ascii local.now) }
    ensures { Answers result
        (optional_faults ((R.reads reader.now).type_faults place.now)
        (attribute attributes.now local.now))
        (optional_value ((R.reads reader.now).type_value place.now)
        (attribute attributes.now local.now)) }
{
    match attribute(attributes, local) {
        None => Ok(None),
        Some(text) => Ok(Some(reader.sequence_type(alloc, place, text)?)),
    }
}

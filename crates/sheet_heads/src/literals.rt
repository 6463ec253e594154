// Literal result elements.
ghost use Rattle.std.specs.Prelude.{◌≡◌, ◌++◌, OnOk};
ghost use Rattle.expr_names.specs.Answers.{Answers};
ghost use Rattle.xt_names.specs.Names.{is_in_xslt};
ghost use Rattle.sheet_heads.specs.Literals.{one_faults, one_value, values_faults, values_value, literal_faults, literal_value};

use crate::bodied::Head;
use expr_names::ResolveFault;
use sheet_table::check_literal_attributes;
use sheet_values::sheet_texts::{Reader, StaticContext, template};
use std::alloc::Global;
use xt_names::{List, Name, Shared, is_in_xslt};
use xt_sheets::values::LiteralAttr;
use xt_tree::Attribute;

/// The attribute, whose value is a template.
fn literal_attribute<R: Reader>(
    alloc: Global,
    reader: &R,
    place: &StaticContext,
    attribute: &Attribute,
) -> Result<LiteralAttr<R::Expr>, ResolveFault>
    ensures { Answers result (one_faults (R.reads reader.now) place.now attribute.now)
        (one_value (R.reads reader.now) place.now attribute.now) }
{
    let value = template(alloc, reader, place, &attribute.value)?;
    let value = Shared::make(alloc, value)?;
    let name = attribute.name.copy()?;
    Ok(LiteralAttr { name, value })
}

/// The attributes that are not of XSLT.
fn literal_attributes<R: Reader>(
    alloc: Global,
    reader: &R,
    place: &StaticContext,
    attributes: &[Attribute],
) -> Result<List<LiteralAttr<R::Expr>>, ResolveFault>
    ensures { Answers result (values_faults (R.reads reader.now) place.now attributes.now)
        (values_value (R.reads reader.now) place.now attributes.now) }
{
    let mut made = List::new(alloc);
    let mut left = attributes;
    while let [attribute, rest @ ..] = left {
        if !is_in_xslt(&attribute.name) {
            made.push(literal_attribute(alloc, reader, place, attribute)?)?;
        }
        left = rest;
    }
    Ok(made)
}

/// The head of a literal result element (XSLT 2.0, 11.1). XTUN0001 comes of attributes of XSLT
/// other than `xsl:exclude-result-prefixes`, and of `xml:space="preserve"`.
pub fn literal_head<R: Reader>(
    alloc: Global,
    reader: &R,
    place: &StaticContext,
    name: &Name,
    attributes: &[Attribute],
) -> Result<Head<R::Expr, R::Pattern>, ResolveFault>
    ensures { Answers result (literal_faults (R.reads reader.now) place.now attributes.now)
        (literal_value (R.reads reader.now) place.now name.now attributes.now) }
{
    check_literal_attributes(attributes)?;
    let made = literal_attributes(alloc, reader, place, attributes)?;
    let made = Shared::make(alloc, made)?;
    let name = name.copy()?;
    Ok(Head::Literal(name, made))
}

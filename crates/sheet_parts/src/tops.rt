// What is at the top of a stylesheet.
ghost use Rattle.expr_names.specs.Answers.{Answers};
ghost use Rattle.sheet_table.specs.Elements.{xsl_element};
ghost use Rattle.sheet_values.specs.SheetTexts.Places.{within};
ghost use Rattle.sheet_parts.specs.Tops.{declaration_faults, declaration_value};
ghost use Rattle.sheet_parts.specs.Tops.{xsl_faults, xsl_value, any_faults, any_value};
ghost use Rattle.sheet_parts.specs.Tops.{top_faults, top_value};

use crate::functions::function;
use crate::globals::{parameter, variable};
use crate::keys::key;
use crate::outputs::{link, output, space};
use crate::templates::template;
use expr_names::ResolveFault;
use sheet_bodies::sheet_heads::refuse_if;
use sheet_modules::Part;
use sheet_table::sheet_nodes::Node;
use sheet_table::{XslElement, misplaced, xsl_element};
use sheet_values::sheet_fault;
use sheet_values::sheet_texts::{Reader, StaticContext};
use std::alloc::Global;
use xt_names::{Binding, List, Name, SheetStaticCode, is_in_xslt};
use xt_tree::Attribute;

fn declaration<R: Reader>(
    alloc: Global,
    reader: &R,
    place: &StaticContext,
    element: XslElement,
    attributes: &[Attribute],
    kids: &[Node],
) -> Result<Part<R::Expr, R::Pattern>, ResolveFault>
    ensures { Answers result
        (declaration_faults (R.reads reader.now) place.now element attributes.now kids.now)
        (declaration_value (R.reads reader.now) place.now element attributes.now kids.now) }
{
    match element {
        XslElement::Import => link(XslElement::Import, attributes, kids),
        XslElement::Include => link(XslElement::Include, attributes, kids),
        XslElement::Template => template(alloc, reader, place, attributes, kids),
        XslElement::Function => function(alloc, reader, place, attributes, kids),
        XslElement::Variable => variable(alloc, reader, place, attributes, kids),
        XslElement::Param => parameter(alloc, reader, place, attributes, kids),
        XslElement::Key => key(alloc, reader, place, attributes, kids),
        XslElement::StripSpace => {
            space(alloc, place, XslElement::StripSpace, true, attributes, kids)
        }
        XslElement::PreserveSpace => space(
            alloc,
            place,
            XslElement::PreserveSpace,
            false,
            attributes,
            kids,
        ),
        XslElement::Output => output(attributes, kids),
        _ => Err(sheet_fault(SheetStaticCode::XTSE0010)),
    }
}

fn xsl_part<R: Reader>(
    alloc: Global,
    reader: &R,
    place: &StaticContext,
    name: &Name,
    attributes: &[Attribute],
    kids: &[Node],
) -> Result<Part<R::Expr, R::Pattern>, ResolveFault>
    ensures { Answers result
        (xsl_faults (R.reads reader.now) place.now (xsl_element name.now) name.now attributes.now
        kids.now)
        (xsl_value (R.reads reader.now) place.now (xsl_element name.now) attributes.now kids.now) }
{
    match xsl_element(name) {
        None => Err(ResolveFault::Static(misplaced(name))),
        Some(element) => declaration(alloc, reader, place, element, attributes, kids),
    }
}

fn element_part<R: Reader>(
    alloc: Global,
    reader: &R,
    place: &StaticContext,
    own: &List<Binding>,
    name: &Name,
    attributes: &[Attribute],
    kids: &[Node],
) -> Result<Part<R::Expr, R::Pattern>, ResolveFault>
    ensures { Answers result
        (any_faults (R.reads reader.now) (within place.now own.now) name.now attributes.now
        kids.now)
        (any_value (R.reads reader.now) (within place.now own.now) name.now attributes.now
        kids.now) }
{
    let inner = place.within(alloc, own)?;
    if is_in_xslt(name) {
        return xsl_part(alloc, reader, &inner, name, attributes, kids);
    }
    refuse_if(SheetStaticCode::XTSE0130, name.uri.is_empty())?;
    Ok(Part::Ignored)
}

/// What a child of the root declares (XSLT 2.0, 3.6.2). XTSE0120 comes of a text, XTSE0130 of an
/// element without namespace, XTUN0001 of an element of XSLT that is left out, and XTSE0010 of
/// another one that may not be there; else the code is that of the first rule that the
/// declaration breaks.
pub fn part<R: Reader>(
    alloc: Global,
    reader: &R,
    place: &StaticContext,
    node: &Node,
) -> Result<Part<R::Expr, R::Pattern>, ResolveFault>
    ensures { Answers result (top_faults (R.reads reader.now) place.now node.now)
        (top_value (R.reads reader.now) place.now node.now) }
{
    match node {
        Node::Elem(own, name, attributes, kids) => element_part(
            alloc,
            reader,
            place,
            own.get(),
            name,
            attributes.as_slice(),
            kids.get().as_slice(),
        ),
        Node::Chars(_) => Err(sheet_fault(SheetStaticCode::XTSE0120)),
    }
}

// Stylesheet functions.
ghost use Rattle.std.specs.Prelude.{◌≡◌, ◌++◌, codes, List as Items};
ghost use Rattle.expr_names.specs.Answers.{Answers};
ghost use Rattle.xt_names.specs.declared.codes.Code.{Code};
ghost use Rattle.sheet_table.specs.Attributes.{attribute};
ghost use Rattle.sheet_values.specs.Names.{function_faults, qname_value};
ghost use Rattle.sheet_bodies.specs.SheetHeads.Attributes.{needed_faults, needed_value};
ghost use Rattle.sheet_modules.specs.declared.modules.Part.TheVariants.{Function};
ghost use Rattle.sheet_parts.specs.declared.parameters.Content.{Content as AnyContent};
ghost use Rattle.sheet_parts.specs.Parameters.{front, arguments_faults, arguments_value};
ghost use Rattle.sheet_parts.specs.Parameters.{behind_faults, behind_value};
ghost use Rattle.sheet_parts.specs.Functions.{head_faults, head_value};
ghost use Rattle.sheet_parts.specs.Functions.{element_faults, element_value};

use crate::parameters::{Content, arguments, with_behind};
use expr_names::ResolveFault;
use sheet_bodies::sheet_heads::optional_type;
use sheet_modules::{FunctionPart, Part};
use sheet_table::sheet_nodes::{Node, split_front};
use sheet_table::{Content as Contents, XslElement, attribute, check_attributes};
use sheet_values::sheet_texts::{Reader, StaticContext};
use sheet_values::{function_name, sheet_fault};
use std::alloc::Global;
use xt_names::{ExprName, SheetStaticCode};
use xt_tree::Attribute;
use xt_types::SeqType;

/// What a function says by its attributes.
#[derive(Drop)]
pub(crate) struct FunctionHead {
    pub(crate) name: ExprName,
    pub(crate) kind: Option<SeqType>,
}

fn own_name(
    alloc: Global,
    place: &StaticContext,
    attributes: &[Attribute],
) -> Result<ExprName, ResolveFault>
    ensures { Answers result
        (needed_faults (function_faults place.now.bound)
        (attribute attributes.now (codes "name")))
        (needed_value (qname_value place.now.bound) (attribute attributes.now (codes "name"))) }
{
    match attribute(attributes, "name") {
        None => Err(sheet_fault(SheetStaticCode::XTSE0010)),
        Some(text) => function_name(alloc, &place.bound, text),
    }
}

fn head<R: Reader>(
    alloc: Global,
    reader: &R,
    place: &StaticContext,
    attributes: &[Attribute],
) -> Result<FunctionHead, ResolveFault>
    ensures { Answers result (head_faults (R.reads reader.now) place.now attributes.now)
        (head_value (R.reads reader.now) place.now attributes.now) }
{
    check_attributes(XslElement::Function, attributes)?;
    let name = own_name(alloc, place, attributes)?;
    let kind = optional_type(alloc, reader, place, attributes, "as")?;
    Ok(FunctionHead { name, kind })
}

fn content<R: Reader>(
    alloc: Global,
    reader: &R,
    place: &StaticContext,
    kids: &[Node],
) -> Result<Content<R::Expr, R::Pattern>, ResolveFault>
    ensures { Answers result
        (arguments_faults (R.reads reader.now) place.now (front kids.now)
        ++ behind_faults (R.reads reader.now) place.now
        (arguments_value (R.reads reader.now) place.now (front kids.now)) kids.now)
        (record {
          params = arguments_value (R.reads reader.now) place.now (front kids.now);
          body = behind_value (R.reads reader.now) place.now kids.now;
        }) }
{
    let (front, _) = split_front(Contents::Params, kids);
    let params = arguments(alloc, reader, place, front)?;
    with_behind(alloc, reader, place, params, kids)
}

/// The function of the head and what was read of its content.
fn with_content<E: Drop, P: Drop>(
    head: FunctionHead,
    content: Result<Content<E, P>, ResolveFault>,
) -> Result<Part<E, P>, ResolveFault>
    ensures { (faults : Items Code) (c : AnyContent E P) → Answers content faults c
        → Answers result faults (Function (record {
          name = head.name;
          params = c.params;
          kind = head.kind;
          body = c.body;
        })) }
{
    match content {
        Err(fault) => {
            drop(head);
            Err(fault)
        }
        Ok(content) => Ok(Part::Function(FunctionPart {
            name: head.name,
            params: content.params,
            kind: head.kind,
            body: content.body,
        })),
    }
}

/// The function that the element declares (XSLT 2.0, 10.3). XTSE0740 comes of a name without
/// prefix, XTSE0760 of a parameter with a default, and XTSE0580 of two parameters of one name.
pub(crate) fn function<R: Reader>(
    alloc: Global,
    reader: &R,
    place: &StaticContext,
    attributes: &[Attribute],
    kids: &[Node],
) -> Result<Part<R::Expr, R::Pattern>, ResolveFault>
    ensures { Answers result
        (element_faults (R.reads reader.now) place.now attributes.now kids.now)
        (element_value (R.reads reader.now) place.now attributes.now kids.now) }
{
    let head = head(alloc, reader, place, attributes)?;
    let content = content(alloc, reader, place, kids);
    with_content(head, content)
}

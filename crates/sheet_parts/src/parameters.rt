// Parameters of templates and functions, and the content after them.
ghost use Rattle.std.specs.Prelude.{◌≡◌, ◌++◌, List as Items};
ghost use Rattle.expr_names.specs.Answers.{Answers};
ghost use Rattle.xt_names.specs.declared.codes.Code.{Code};
ghost use Rattle.xt_sheets.specs.declared.instrs.Instr.{Instr as AnyInstr};
ghost use Rattle.sheet_table.specs.declared.sheet_nodes.nodes.Node.TheViews.{out-Node};
ghost use Rattle.sheet_values.specs.SheetTexts.Places.{within};
ghost use Rattle.sheet_parts.specs.Parameters.{tunnel_faults, param_faults, param_value};
ghost use Rattle.sheet_parts.specs.Parameters.{argument_faults, argument_value};
ghost use Rattle.sheet_parts.specs.Parameters.{param_layer_faults, param_layer_value};
ghost use Rattle.sheet_parts.specs.Parameters.{params_faults, params_value};
ghost use Rattle.sheet_parts.specs.Parameters.{argument_layer_faults, argument_layer_value};
ghost use Rattle.sheet_parts.specs.Parameters.{arguments_faults, arguments_value};
ghost use Rattle.sheet_parts.specs.Parameters.{behind_faults, behind_value};

use expr_names::ResolveFault;
use sheet_bodies::sheet_heads::{check_repeats, is_yes, needed_name, optional_type, refuse_if};
use sheet_bodies::{is_none, read_body, read_bound, with_item};
use sheet_table::sheet_nodes::{Node, misplaced_node, split_front};
use sheet_table::{Content as Contents, XslElement, check_attributes, has};
use sheet_values::sheet_texts::{Reader, StaticContext};
use std::alloc::Global;
use xt_names::{Binding, List, SheetStaticCode};
use xt_sheets::instrs::{Bound, Instr, Value};
use xt_tree::Attribute;

/// How deep instructions may nest.
pub(crate) const MOST_LEVELS: u32 = 40;

/// Parameters, and the instructions after them.
#[derive(Drop)]
pub(crate) struct Content<E, P> {
    pub(crate) params: List<Bound<E, P>>,
    pub(crate) body: List<Instr<E, P>>,
}

/// Refuses `tunnel="yes"`.
pub(crate) fn check_tunnel(attributes: &[Attribute]) -> Result<(), ResolveFault>
    ensures { Answers result (tunnel_faults attributes.now) tt }
{
    refuse_if(SheetStaticCode::XTSE0020, is_yes(attributes, "tunnel"))
}

fn param<R: Reader>(
    alloc: Global,
    reader: &R,
    place: &StaticContext,
    own: &List<Binding>,
    attributes: &[Attribute],
    kids: &[Node],
) -> Result<Bound<R::Expr, R::Pattern>, ResolveFault>
    ensures { Answers result
        (param_faults (R.reads reader.now) (within place.now own.now) attributes.now kids.now)
        (param_value (R.reads reader.now) (within place.now own.now) attributes.now kids.now) }
{
    let inner = place.within(alloc, own)?;
    read_bound(
        alloc,
        reader,
        MOST_LEVELS,
        &inner,
        XslElement::Param,
        attributes,
        kids,
    )
}

fn param_node<R: Reader>(
    alloc: Global,
    reader: &R,
    place: &StaticContext,
    node: &Node,
) -> Result<Bound<R::Expr, R::Pattern>, ResolveFault>
    ensures { Answers result
        (param_layer_faults (R.reads reader.now) place.now node.now (out-Node node.now))
        (param_layer_value (R.reads reader.now) place.now (out-Node node.now)) }
{
    match node {
        Node::Elem(own, _, attributes, kids) => param(
            alloc,
            reader,
            place,
            own.get(),
            attributes.as_slice(),
            kids.get().as_slice(),
        ),
        Node::Chars(_) => Err(ResolveFault::Static(misplaced_node(node))),
    }
}

/// The parameters of a template.
pub(crate) fn params<R: Reader>(
    alloc: Global,
    reader: &R,
    place: &StaticContext,
    nodes: &[Node],
) -> Result<List<Bound<R::Expr, R::Pattern>>, ResolveFault>
    ensures { Answers result (params_faults (R.reads reader.now) place.now nodes.now)
        (params_value (R.reads reader.now) place.now nodes.now) }
{
    let mut made = List::new(alloc);
    let mut left = nodes;
    while let [node, rest @ ..] = left {
        let one = param_node(alloc, reader, place, node);
        made = with_item(made, one)?;
        left = rest;
    }
    Ok(made)
}

fn argument<R: Reader>(
    alloc: Global,
    reader: &R,
    place: &StaticContext,
    own: &List<Binding>,
    attributes: &[Attribute],
    kids: &[Node],
) -> Result<Bound<R::Expr, R::Pattern>, ResolveFault>
    ensures { Answers result
        (argument_faults (R.reads reader.now) (within place.now own.now) attributes.now kids.now)
        (argument_value (R.reads reader.now) (within place.now own.now) attributes.now) }
{
    let inner = place.within(alloc, own)?;
    check_attributes(XslElement::Param, attributes)?;
    refuse_if(
        SheetStaticCode::XTSE0760,
        has(attributes, "select") || !is_none(kids),
    )?;
    check_tunnel(attributes)?;
    let name = needed_name(alloc, &inner, attributes)?;
    let kind = optional_type(alloc, reader, &inner, attributes, "as")?;
    Ok(Bound {
        name,
        kind,
        value: Value::Required,
        tunnel: false,
    })
}

fn argument_node<R: Reader>(
    alloc: Global,
    reader: &R,
    place: &StaticContext,
    node: &Node,
) -> Result<Bound<R::Expr, R::Pattern>, ResolveFault>
    ensures { Answers result
        (argument_layer_faults (R.reads reader.now) place.now node.now (out-Node node.now))
        (argument_layer_value (R.reads reader.now) place.now (out-Node node.now)) }
{
    match node {
        Node::Elem(own, _, attributes, kids) => argument(
            alloc,
            reader,
            place,
            own.get(),
            attributes.as_slice(),
            kids.get().as_slice(),
        ),
        Node::Chars(_) => Err(ResolveFault::Static(misplaced_node(node))),
    }
}

/// The parameters of a function.
pub(crate) fn arguments<R: Reader>(
    alloc: Global,
    reader: &R,
    place: &StaticContext,
    nodes: &[Node],
) -> Result<List<Bound<R::Expr, R::Pattern>>, ResolveFault>
    ensures { Answers result (arguments_faults (R.reads reader.now) place.now nodes.now)
        (arguments_value (R.reads reader.now) place.now nodes.now) }
{
    let mut made = List::new(alloc);
    let mut left = nodes;
    while let [node, rest @ ..] = left {
        let one = argument_node(alloc, reader, place, node);
        made = with_item(made, one)?;
        left = rest;
    }
    Ok(made)
}

/// The instructions, with the parameters before them, which are refused where `differ` is.
fn with_body<E: Drop, P: Drop>(
    params: List<Bound<E, P>>,
    differ: Result<(), ResolveFault>,
    body: Result<List<Instr<E, P>>, ResolveFault>,
) -> Result<Content<E, P>, ResolveFault>
    ensures { (faults more : Items Code) (all : Items (AnyInstr E P)) → Answers differ faults tt
        → Answers body more all
        → Answers result (faults ++ more) (record { params = params; body = all }) }
{
    match differ {
        Err(fault) => {
            drop(params);
            drop(body);
            Err(fault)
        }
        Ok(()) => match body {
            Err(fault) => {
                drop(params);
                Err(fault)
            }
            Ok(body) => Ok(Content { params, body }),
        },
    }
}

/// The parameters, of which no two have one name, and the instructions after them.
pub(crate) fn with_behind<R: Reader>(
    alloc: Global,
    reader: &R,
    place: &StaticContext,
    params: List<Bound<R::Expr, R::Pattern>>,
    kids: &[Node],
) -> Result<Content<R::Expr, R::Pattern>, ResolveFault>
    ensures { Answers result (behind_faults (R.reads reader.now) place.now params kids.now)
        (record { params = params; body = behind_value (R.reads reader.now) place.now kids.now }) }
{
    let (_, rest) = split_front(Contents::Params, kids);
    let differ = check_repeats(alloc, SheetStaticCode::XTSE0580, params.as_slice());
    let body = read_body(alloc, reader, MOST_LEVELS, place, rest);
    with_body(params, differ, body)
}

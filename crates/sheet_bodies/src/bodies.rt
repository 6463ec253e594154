// Sequence constructors, level by level.
ghost use Rattle.expr_names.specs.Answers.{Answers};
ghost use Rattle.sheet_table.specs.declared.sheet_nodes.nodes.Node.TheViews.{out-Node};
ghost use Rattle.sheet_table.specs.Elements.{xsl_element};
ghost use Rattle.sheet_heads.specs.Forms.{form_of};
ghost use Rattle.sheet_bodies.specs.Bodies.{body_faults, body_value, node_faults, node_value};
ghost use Rattle.sheet_bodies.specs.Bodies.{any_faults, any_value, xsl_faults, xsl_value};
ghost use Rattle.sheet_bodies.specs.Bodies.{form_faults, form_value, bodied_faults, bodied_value};
ghost use Rattle.sheet_bodies.specs.Bodies.{choose_faults, choose_value, whens_faults, whens_value};
ghost use Rattle.sheet_bodies.specs.Bodies.{when_faults, when_value, when_layer_faults};
ghost use Rattle.sheet_bodies.specs.Bodies.{when_layer_value, others_faults, others_value};
ghost use Rattle.sheet_bodies.specs.Bodies.{other_layer_faults, other_layer_value, other_faults};
ghost use Rattle.sheet_bodies.specs.Bodies.{bind_faults, bind_value, passed_faults, passed_value};
ghost use Rattle.sheet_bodies.specs.Bodies.{passed_layer_faults, passed_layer_value, call_faults};
ghost use Rattle.sheet_bodies.specs.Bodies.{call_value};
ghost use Rattle.sheet_heads.specs.SheetValues.SheetTexts.Places.{within};
ghost use Rattle.sheet_table.specs.declared.elements.XslElement.TheVariants.{WithParam};

use crate::parts::{
    before, bound, choice, finished, inner, is_none, is_otherwise, left_behind, passing, variable,
    when, with_item,
};
use expr_names::ResolveFault;
use sheet_heads::sheet_values::sheet_fault;
use sheet_heads::sheet_values::sheet_texts::{Reader, StaticContext};
use sheet_heads::{
    Form, bound_head, call_head, check_repeats, form_of, leaf, literal_head, needed_expr,
    read_head, refuse_if,
};
use sheet_table::sheet_nodes::{Node, check_none, is_with_param, misplaced_node, split_front};
use sheet_table::{XslElement, check_attributes, content_of, misplaced, xsl_element};
use std::alloc::Global;
use xt_names::{Binding, List, Name, SheetStaticCode, is_in_xslt};
use xt_sheets::instrs::{Bound, Instr, When};
use xt_tree::Attribute;

/// The instructions that the nodes are, which may have so many levels (XSLT 2.0, 5.7). XTLM0004
/// comes of an instruction where no level is left; else the code is that of the first broken rule.
#[cycle(bodies)]
pub fn read_body<R: Reader>(
    alloc: Global,
    reader: &R,
    room: u32,
    place: &StaticContext,
    nodes: &[Node],
) -> Result<List<Instr<R::Expr, R::Pattern>>, ResolveFault>
    ensures { Answers result
        (body_faults (R.reads reader.now) room place.now nodes.now)
        (body_value (R.reads reader.now) room place.now nodes.now) }
{
    let mut made = List::new(alloc);
    let mut left = room;
    for node in nodes {
        if left == 0 {
            drop(made);
            return Err(sheet_fault(SheetStaticCode::XTLM0004));
        }
        let below = left - 1;
        let one = read_node(alloc, reader, below, place, node);
        made = with_item(made, one)?;
        left = left_behind(below, node);
    }
    Ok(made)
}

#[cycle(bodies)]
fn read_node<R: Reader>(
    alloc: Global,
    reader: &R,
    below: u32,
    place: &StaticContext,
    node: &Node,
) -> Result<Instr<R::Expr, R::Pattern>, ResolveFault>
    ensures { Answers result
        (node_faults (R.reads reader.now) (body_faults (R.reads reader.now) below)
        (body_value (R.reads reader.now) below) place.now node.now)
        (node_value (R.reads reader.now) (body_value (R.reads reader.now) below) place.now
        node.now) }
{
    match node {
        Node::Elem(own, name, attributes, kids) => read_element(
            alloc,
            reader,
            below,
            place,
            own.get(),
            name,
            attributes.as_slice(),
            kids.get().as_slice(),
        ),
        Node::Chars(text) => Ok(Instr::Chars(text.copy()?)),
    }
}

#[cycle(bodies)]
fn read_element<R: Reader>(
    alloc: Global,
    reader: &R,
    below: u32,
    place: &StaticContext,
    own: &List<Binding>,
    name: &Name,
    attributes: &[Attribute],
    kids: &[Node],
) -> Result<Instr<R::Expr, R::Pattern>, ResolveFault>
    ensures { Answers result
        (any_faults (R.reads reader.now) (body_faults (R.reads reader.now) below)
        (body_value (R.reads reader.now) below) (within place.now own.now) name.now
        attributes.now kids.now)
        (any_value (R.reads reader.now) (body_value (R.reads reader.now) below)
        (within place.now own.now) name.now attributes.now kids.now) }
{
    let inner = place.within(alloc, own)?;
    if is_in_xslt(name) {
        return read_xsl(alloc, reader, below, &inner, name, attributes, kids);
    }
    let head = literal_head(alloc, reader, &inner, name, attributes)?;
    let body = read_body(alloc, reader, below, &inner, kids);
    finished(alloc, head, body)
}

#[cycle(bodies)]
fn read_xsl<R: Reader>(
    alloc: Global,
    reader: &R,
    below: u32,
    place: &StaticContext,
    name: &Name,
    attributes: &[Attribute],
    kids: &[Node],
) -> Result<Instr<R::Expr, R::Pattern>, ResolveFault>
    ensures { Answers result
        (xsl_faults (R.reads reader.now) (body_faults (R.reads reader.now) below)
        (body_value (R.reads reader.now) below) (xsl_element name.now) name.now place.now
        attributes.now kids.now)
        (xsl_value (R.reads reader.now) (body_value (R.reads reader.now) below)
        (xsl_element name.now) place.now attributes.now kids.now) }
{
    match xsl_element(name) {
        None => Err(ResolveFault::Static(misplaced(name))),
        Some(element) => read_form(alloc, reader, below, place, element, attributes, kids),
    }
}

#[cycle(bodies)]
fn read_form<R: Reader>(
    alloc: Global,
    reader: &R,
    below: u32,
    place: &StaticContext,
    element: XslElement,
    attributes: &[Attribute],
    kids: &[Node],
) -> Result<Instr<R::Expr, R::Pattern>, ResolveFault>
    ensures { Answers result
        (form_faults (R.reads reader.now) (body_faults (R.reads reader.now) below)
        (body_value (R.reads reader.now) below) (form_of element) element place.now
        attributes.now kids.now)
        (form_value (R.reads reader.now) (body_value (R.reads reader.now) below)
        (form_of element) element place.now attributes.now kids.now) }
{
    match form_of(element) {
        Form::Leaf => leaf(alloc, reader, place, element, attributes, kids),
        Form::Bodied => read_bodied(alloc, reader, below, place, element, attributes, kids),
        Form::Choice => read_choose(alloc, reader, below, place, attributes, kids),
        Form::Binding => {
            let bound = read_bound(alloc, reader, below, place, element, attributes, kids);
            variable(bound)
        }
        Form::Call => read_call(alloc, reader, below, place, element, attributes, kids),
        Form::Other => Err(sheet_fault(SheetStaticCode::XTSE0010)),
    }
}

#[cycle(bodies)]
fn read_bodied<R: Reader>(
    alloc: Global,
    reader: &R,
    below: u32,
    place: &StaticContext,
    element: XslElement,
    attributes: &[Attribute],
    kids: &[Node],
) -> Result<Instr<R::Expr, R::Pattern>, ResolveFault>
    ensures { Answers result
        (bodied_faults (R.reads reader.now) (body_faults (R.reads reader.now) below) element
        place.now attributes.now kids.now)
        (bodied_value (R.reads reader.now) (body_value (R.reads reader.now) below) element
        place.now attributes.now kids.now) }
{
    let (front, rest) = split_front(content_of(element), kids);
    let inner = inner(element, place)?;
    let has_content = !is_none(rest);
    let head = read_head(
        alloc,
        reader,
        place,
        element,
        attributes,
        front,
        has_content,
    )?;
    let body = read_body(alloc, reader, below, &inner, rest);
    finished(alloc, head, body)
}

#[cycle(bodies)]
fn read_choose<R: Reader>(
    alloc: Global,
    reader: &R,
    below: u32,
    place: &StaticContext,
    attributes: &[Attribute],
    kids: &[Node],
) -> Result<Instr<R::Expr, R::Pattern>, ResolveFault>
    ensures { Answers result
        (choose_faults (R.reads reader.now) (body_faults (R.reads reader.now) below) place.now
        attributes.now kids.now)
        (choose_value (R.reads reader.now) (body_value (R.reads reader.now) below) place.now
        kids.now) }
{
    check_attributes(XslElement::Choose, attributes)?;
    let (front, rest) = split_front(content_of(XslElement::Choose), kids);
    refuse_if(SheetStaticCode::XTSE0010, is_none(front))?;
    let whens = read_whens(alloc, reader, below, place, front)?;
    let other = read_others(alloc, reader, below, place, rest);
    choice(alloc, whens, other)
}

#[cycle(bodies)]
fn read_whens<R: Reader>(
    alloc: Global,
    reader: &R,
    below: u32,
    place: &StaticContext,
    nodes: &[Node],
) -> Result<List<When<R::Expr, R::Pattern>>, ResolveFault>
    ensures { Answers result
        (whens_faults (R.reads reader.now) (body_faults (R.reads reader.now) below) place.now
        nodes.now)
        (whens_value (R.reads reader.now) (body_value (R.reads reader.now) below) place.now
        nodes.now) }
{
    let mut made = List::new(alloc);
    for node in nodes {
        let one = read_when_node(alloc, reader, below, place, node);
        made = with_item(made, one)?;
    }
    Ok(made)
}

#[cycle(bodies)]
fn read_when_node<R: Reader>(
    alloc: Global,
    reader: &R,
    below: u32,
    place: &StaticContext,
    node: &Node,
) -> Result<When<R::Expr, R::Pattern>, ResolveFault>
    ensures { Answers result
        (when_layer_faults (R.reads reader.now) (body_faults (R.reads reader.now) below)
        place.now node.now (out-Node node.now))
        (when_layer_value (R.reads reader.now) (body_value (R.reads reader.now) below) place.now
        (out-Node node.now)) }
{
    match node {
        Node::Elem(own, _, attributes, kids) => read_when(
            alloc,
            reader,
            below,
            place,
            own.get(),
            attributes.as_slice(),
            kids.get().as_slice(),
        ),
        Node::Chars(_) => Err(ResolveFault::Static(misplaced_node(node))),
    }
}

#[cycle(bodies)]
fn read_when<R: Reader>(
    alloc: Global,
    reader: &R,
    below: u32,
    place: &StaticContext,
    own: &List<Binding>,
    attributes: &[Attribute],
    kids: &[Node],
) -> Result<When<R::Expr, R::Pattern>, ResolveFault>
    ensures { Answers result
        (when_faults (R.reads reader.now) (body_faults (R.reads reader.now) below)
        (within place.now own.now) attributes.now kids.now)
        (when_value (R.reads reader.now) (body_value (R.reads reader.now) below)
        (within place.now own.now) attributes.now kids.now) }
{
    let inner = place.within(alloc, own)?;
    check_attributes(XslElement::When, attributes)?;
    let test = needed_expr(alloc, reader, &inner, attributes, "test")?;
    let body = read_body(alloc, reader, below, &inner, kids);
    when(alloc, test, body)
}

#[cycle(bodies)]
fn read_others<R: Reader>(
    alloc: Global,
    reader: &R,
    below: u32,
    place: &StaticContext,
    nodes: &[Node],
) -> Result<List<Instr<R::Expr, R::Pattern>>, ResolveFault>
    ensures { Answers result
        (others_faults (R.reads reader.now) (body_faults (R.reads reader.now) below) place.now
        nodes.now)
        (others_value (R.reads reader.now) (body_value (R.reads reader.now) below) place.now
        nodes.now) }
{
    match nodes {
        [] => Ok(List::new(alloc)),
        [first, rest @ ..] => {
            let body = read_other_node(alloc, reader, below, place, first);
            before(body, check_none(rest))
        }
    }
}

#[cycle(bodies)]
fn read_other_node<R: Reader>(
    alloc: Global,
    reader: &R,
    below: u32,
    place: &StaticContext,
    node: &Node,
) -> Result<List<Instr<R::Expr, R::Pattern>>, ResolveFault>
    ensures { Answers result
        (other_layer_faults (R.reads reader.now) (body_faults (R.reads reader.now) below)
        place.now node.now (out-Node node.now))
        (other_layer_value (R.reads reader.now) (body_value (R.reads reader.now) below) place.now
        (out-Node node.now)) }
{
    match node {
        Node::Elem(own, name, attributes, kids) => {
            if !is_otherwise(name) {
                return Err(ResolveFault::Static(misplaced_node(node)));
            }
            read_other(
                alloc,
                reader,
                below,
                place,
                own.get(),
                attributes.as_slice(),
                kids.get().as_slice(),
            )
        }
        Node::Chars(_) => Err(ResolveFault::Static(misplaced_node(node))),
    }
}

#[cycle(bodies)]
fn read_other<R: Reader>(
    alloc: Global,
    reader: &R,
    below: u32,
    place: &StaticContext,
    own: &List<Binding>,
    attributes: &[Attribute],
    kids: &[Node],
) -> Result<List<Instr<R::Expr, R::Pattern>>, ResolveFault>
    ensures { Answers result
        (other_faults (R.reads reader.now) (body_faults (R.reads reader.now) below)
        (within place.now own.now) attributes.now kids.now)
        (body_value (R.reads reader.now) below (within place.now own.now) kids.now) }
{
    let inner = place.within(alloc, own)?;
    check_attributes(XslElement::Otherwise, attributes)?;
    read_body(alloc, reader, below, &inner, kids)
}

/// The variable or parameter that the element binds or passes, whose content may have so many
/// levels (XSLT 2.0, 9 and 10.1.1); its codes are those of its head, and then of its content.
#[cycle(bodies)]
pub fn read_bound<R: Reader>(
    alloc: Global,
    reader: &R,
    below: u32,
    place: &StaticContext,
    element: XslElement,
    attributes: &[Attribute],
    kids: &[Node],
) -> Result<Bound<R::Expr, R::Pattern>, ResolveFault>
    ensures { Answers result
        (bind_faults (R.reads reader.now) (body_faults (R.reads reader.now) below) element
        place.now attributes.now kids.now)
        (bind_value (R.reads reader.now) (body_value (R.reads reader.now) below) place.now
        attributes.now kids.now) }
{
    let has_content = !is_none(kids);
    let head = bound_head(alloc, reader, place, element, attributes, has_content)?;
    let body = read_body(alloc, reader, below, place, kids);
    bound(alloc, head, has_content, body)
}

#[cycle(bodies)]
fn read_call<R: Reader>(
    alloc: Global,
    reader: &R,
    below: u32,
    place: &StaticContext,
    element: XslElement,
    attributes: &[Attribute],
    kids: &[Node],
) -> Result<Instr<R::Expr, R::Pattern>, ResolveFault>
    ensures { Answers result
        (call_faults (R.reads reader.now) (body_faults (R.reads reader.now) below)
        (body_value (R.reads reader.now) below) element place.now attributes.now kids.now)
        (call_value (R.reads reader.now) (body_value (R.reads reader.now) below) element
        place.now attributes.now kids.now) }
{
    let (front, rest) = split_front(content_of(element), kids);
    let head = call_head(alloc, reader, place, element, attributes, front)?;
    check_none(rest)?;
    let params = read_passed(alloc, reader, below, place, front)?;
    let differ = check_repeats(alloc, SheetStaticCode::XTSE0670, params.as_slice());
    passing(alloc, head, params, differ)
}

#[cycle(bodies)]
fn read_passed<R: Reader>(
    alloc: Global,
    reader: &R,
    below: u32,
    place: &StaticContext,
    nodes: &[Node],
) -> Result<List<Bound<R::Expr, R::Pattern>>, ResolveFault>
    ensures { Answers result
        (passed_faults (R.reads reader.now) (body_faults (R.reads reader.now) below) place.now
        nodes.now)
        (passed_value (R.reads reader.now) (body_value (R.reads reader.now) below) place.now
        nodes.now) }
{
    let mut made = List::new(alloc);
    for node in nodes {
        if is_with_param(node) {
            let one = read_passed_node(alloc, reader, below, place, node);
            made = with_item(made, one)?;
        }
    }
    Ok(made)
}

#[cycle(bodies)]
fn read_passed_node<R: Reader>(
    alloc: Global,
    reader: &R,
    below: u32,
    place: &StaticContext,
    node: &Node,
) -> Result<Bound<R::Expr, R::Pattern>, ResolveFault>
    ensures { Answers result
        (passed_layer_faults (R.reads reader.now) (body_faults (R.reads reader.now) below)
        place.now node.now (out-Node node.now))
        (passed_layer_value (R.reads reader.now) (body_value (R.reads reader.now) below)
        place.now (out-Node node.now)) }
{
    match node {
        Node::Elem(own, _, attributes, kids) => read_with_param(
            alloc,
            reader,
            below,
            place,
            own.get(),
            attributes.as_slice(),
            kids.get().as_slice(),
        ),
        Node::Chars(_) => Err(ResolveFault::Static(misplaced_node(node))),
    }
}

#[cycle(bodies)]
fn read_with_param<R: Reader>(
    alloc: Global,
    reader: &R,
    below: u32,
    place: &StaticContext,
    own: &List<Binding>,
    attributes: &[Attribute],
    kids: &[Node],
) -> Result<Bound<R::Expr, R::Pattern>, ResolveFault>
    ensures { Answers result
        (bind_faults (R.reads reader.now) (body_faults (R.reads reader.now) below) WithParam
        (within place.now own.now) attributes.now kids.now)
        (bind_value (R.reads reader.now) (body_value (R.reads reader.now) below)
        (within place.now own.now) attributes.now kids.now) }
{
    let inner = place.within(alloc, own)?;
    read_bound(
        alloc,
        reader,
        below,
        &inner,
        XslElement::WithParam,
        attributes,
        kids,
    )
}

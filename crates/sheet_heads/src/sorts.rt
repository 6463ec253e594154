// Sort keys.
ghost use Rattle.std.specs.Prelude.{◌≡◌, IfOk};
ghost use Rattle.expr_names.specs.Answers.{Answers};
ghost use Rattle.sheet_table.specs.Attributes.{attribute};
ghost use Rattle.std.specs.Prelude.{codes};
ghost use Rattle.sheet_heads.specs.Sorts.{key_faults, key_value, is_descending, number_of};
ghost use Rattle.sheet_heads.specs.Sorts.{sort_faults, sort_value, keys_faults, keys_value};
ghost use Rattle.sheet_heads.specs.Sorts.{sort_node_faults, sort_node_value};

use expr_names::ResolveFault;
use sheet_table::sheet_nodes::{Node, check_none, is_sort, misplaced_node};
use sheet_table::{XslElement, attribute, check_attributes};
use sheet_values::sheet_texts::{Reader, StaticContext};
use std::alloc::{AllocError, Global};
use xt_names::{Binding, List, Shared, Text, TextBuilder, is_ascii_text};
use xt_sheets::values::Sort;
use xt_tree::Attribute;

fn context_item(alloc: Global) -> Result<Text, AllocError>
    ensures { IfOk result (λ text. text ≡ codes ".") }
{
    let mut made = TextBuilder::new(alloc);
    made.push('.')?;
    made.finish()
}

/// What items are sorted by: `select`, which is `.` where it is missing.
fn key<R: Reader>(
    alloc: Global,
    reader: &R,
    place: &StaticContext,
    attributes: &[Attribute],
) -> Result<Shared<R::Expr>, ResolveFault>
    ensures { Answers result (key_faults (R.reads reader.now) place.now attributes.now)
        (key_value (R.reads reader.now) place.now attributes.now) }
{
    match attribute(attributes, "select") {
        Some(text) => reader.expr(alloc, place, text),
        None => {
            let item = context_item(alloc)?;
            reader.expr(alloc, place, &item)
        }
    }
}

#[tactic(auto, unfolding(crate::specs::Sorts::is_descending))]
fn is_descending(attributes: &[Attribute]) -> bool
    ensures { result ≡ is_descending (attribute attributes.now (codes "order")) }
{
    match attribute(attributes, "order") {
        Some(text) => is_ascii_text(text.as_str(), "descending"),
        None => false,
    }
}

#[tactic(auto, unfolding(crate::specs::Sorts::number_of))]
fn number_of(attributes: &[Attribute]) -> Option<bool>
    ensures { result ≡ number_of (attribute attributes.now (codes "data-type")) }
{
    match attribute(attributes, "data-type") {
        Some(text) => Some(is_ascii_text(text.as_str(), "number")),
        None => None,
    }
}

fn sort<R: Reader>(
    alloc: Global,
    reader: &R,
    place: &StaticContext,
    own: &List<Binding>,
    attributes: &[Attribute],
    kids: &[Node],
) -> Result<Sort<R::Expr>, ResolveFault>
    ensures { Answers result
        (sort_faults (R.reads reader.now) place.now own.now attributes.now kids.now)
        (sort_value (R.reads reader.now) place.now own.now attributes.now) }
{
    check_attributes(XslElement::Sort, attributes)?;
    check_none(kids)?;
    let inner = place.within(alloc, own)?;
    let key = key(alloc, reader, &inner, attributes)?;
    Ok(Sort {
        key,
        descending: is_descending(attributes),
        number: number_of(attributes),
    })
}

fn sort_node<R: Reader>(
    alloc: Global,
    reader: &R,
    place: &StaticContext,
    node: &Node,
) -> Result<Sort<R::Expr>, ResolveFault>
    ensures { Answers result (sort_node_faults (R.reads reader.now) place.now node.now)
        (sort_node_value (R.reads reader.now) place.now node.now) }
{
    match node {
        Node::Elem(own, _, attributes, kids) => sort(
            alloc,
            reader,
            place,
            own.get(),
            attributes.as_slice(),
            kids.get().as_slice(),
        ),
        Node::Chars(_) => Err(ResolveFault::Static(misplaced_node(node))),
    }
}

/// The sort keys among the nodes, which are the elements `xsl:sort` (XSLT 2.0, 13.1).
pub fn sort_keys<R: Reader>(
    alloc: Global,
    reader: &R,
    place: &StaticContext,
    nodes: &[Node],
) -> Result<List<Sort<R::Expr>>, ResolveFault>
    ensures { Answers result (keys_faults (R.reads reader.now) place.now nodes.now)
        (keys_value (R.reads reader.now) place.now nodes.now) }
{
    let mut made = List::new(alloc);
    let mut left = nodes;
    while let [node, rest @ ..] = left {
        if is_sort(node) {
            made.push(sort_node(alloc, reader, place, node)?)?;
        }
        left = rest;
    }
    Ok(made)
}

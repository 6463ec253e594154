ghost use Rattle.std.specs.Prelude.{◌≡◌, ◌&&◌, true, false, None, IfOk, Option, map, List as Items};
ghost use Rattle.expr_terms.specs.declared.raws.Raw.TheOpen.{Node};
ghost use Rattle.std.specs.List.{list_all};
ghost use Rattle.expr_rules.specs.ExprShapes.Shapes.{tag_in, last_tag, first_tag, passed_tag, ends_alike, declares_nothing, own_shape, shape_layer, shape_of, is_shaped, is_good};

use expr_terms::{Production, Raw, Token};
use std::alloc::{AllocError, Global};
use xt_names::{List, Text, is_ascii_text};

/// The name of a tag or an attribute, as it is written.
#[derive(Drop)]
pub struct Tag {
    pub prefix: Text,
    pub local: Text,
}

/// Whether a value is shaped, and the name of a tag that it passes on.
#[derive(Drop)]
pub struct Shape {
    pub good: bool,
    pub tag: Option<Tag>,
}

fn copy_tag(prefix: &Text, local: &Text) -> Result<Tag, AllocError>
    ensures { IfOk result (λ tag. tag ≡ record { prefix = prefix.now; local = local.now }) }
{
    Ok(Tag {
        prefix: prefix.copy()?,
        local: local.copy()?,
    })
}

#[tactic(auto, unfolding(crate::specs::ExprShapes::Shapes::tag_in))]
fn tag_in(token: &Token) -> Result<Option<Tag>, AllocError>
    ensures { IfOk result (λ tag. tag ≡ tag_in token.now) }
{
    match token {
        Token::StartTagOpen(prefix, local)
        | Token::ChildTagOpen(prefix, local)
        | Token::EndTag(prefix, local)
        | Token::Attribute(prefix, local) => Ok(Some(copy_tag(prefix, local)?)),
        _ => Ok(None),
    }
}

fn copy_option(tag: &Option<Tag>) -> Result<Option<Tag>, AllocError>
    ensures { IfOk result (λ copy. copy ≡ tag.now) }
{
    match tag {
        None => Ok(None),
        Some(tag) => Ok(Some(copy_tag(&tag.prefix, &tag.local)?)),
    }
}

fn last_tag(shapes: &[Shape]) -> Result<Option<Tag>, AllocError>
    ensures { IfOk result (λ tag. tag ≡ last_tag shapes.now) }
{
    let mut left = shapes;
    while let [_, rest @ ..] = left {
        if rest.is_empty() {
            break;
        }
        left = rest;
    }
    first_tag(left)
}

fn first_tag(shapes: &[Shape]) -> Result<Option<Tag>, AllocError>
    ensures { IfOk result (λ tag. tag ≡ first_tag shapes.now) }
{
    match shapes {
        [shape, ..] => copy_option(&shape.tag),
        [] => Ok(None),
    }
}

#[tactic(auto, unfolding(crate::specs::ExprShapes::Shapes::passed_tag))]
fn passed_tag(production: Production, shapes: &[Shape]) -> Result<Option<Tag>, AllocError>
    ensures { IfOk result (λ tag. tag ≡ passed_tag production shapes.now) }
{
    match production {
        Production::ElementContent => last_tag(shapes),
        _ => Ok(None),
    }
}

#[tactic(auto, unfolding(crate::specs::ExprShapes::Shapes::ends_alike))]
fn ends_alike(front: &Option<Tag>, end: &Option<Tag>) -> bool
    ensures { result ≡ ends_alike front.now end.now }
{
    match (front, end) {
        (Some(a), Some(b)) => a.prefix == b.prefix && a.local == b.local,
        _ => true,
    }
}

#[tactic(auto, unfolding(crate::specs::ExprShapes::Shapes::declares_nothing))]
fn declares_nothing(tag: &Option<Tag>) -> bool
    ensures { result ≡ declares_nothing tag.now }
{
    match tag {
        None => true,
        Some(a) => {
            !is_ascii_text(a.prefix.as_str(), "xmlns")
                && !(a.prefix.is_empty() && is_ascii_text(a.local.as_str(), "xmlns"))
        }
    }
}

fn are_tags_alike(shapes: &[Shape]) -> Result<bool, AllocError>
    ensures { IfOk result (λ alike. alike ≡ ends_alike (first_tag shapes.now) (last_tag shapes.now)) }
{
    let front = first_tag(shapes)?;
    let end = last_tag(shapes)?;
    Ok(ends_alike(&front, &end))
}

#[tactic(auto, unfolding(crate::specs::ExprShapes::Shapes::own_shape))]
fn own_shape(production: Production, shapes: &[Shape]) -> Result<bool, AllocError>
    ensures { IfOk result (λ good. good ≡ own_shape production shapes.now) }
{
    match production {
        Production::DirectElement | Production::ChildElement => are_tags_alike(shapes),
        Production::AttributeValue => {
            let tag = first_tag(shapes)?;
            Ok(declares_nothing(&tag))
        }
        _ => Ok(true),
    }
}

fn are_good(shapes: &[Shape]) -> bool
    ensures { result ≡ list_all is_good shapes.now }
{
    shapes.iter().all(|shape| shape.good)
}

/// Whether the tags in the parts of the production say something of it. Of all others it is enough
/// to know whether their parts are shaped.
#[tactic(auto, unfolding(crate::specs::ExprShapes::Shapes::own_shape, crate::specs::ExprShapes::Shapes::passed_tag))]
fn reads_tags(production: Production) -> bool
    ensures own { result ≡ false → (ss : Items Shape) → own_shape production ss ≡ true }
    ensures passed { result ≡ false → (ss : Items Shape) → passed_tag production ss ≡ None }
{
    match production {
        Production::DirectElement
        | Production::ChildElement
        | Production::ElementContent
        | Production::AttributeValue => true,
        _ => false,
    }
}

/// The shape of a production, of whose parts these are the shapes.
fn shape_with(production: Production, shapes: &[Shape]) -> Result<Shape, AllocError>
    ensures { IfOk result (λ shape. shape ≡ shape_layer (Node production shapes.now)) }
{
    let tag = passed_tag(production, shapes)?;
    let own = own_shape(production, shapes)?;
    Ok(Shape {
        good: are_good(shapes) && own,
        tag,
    })
}

#[cycle(shapes)]
fn shape_of(alloc: Global, raw: &Raw) -> Result<Shape, AllocError>
    ensures { IfOk result (λ shape. shape ≡ shape_of raw.now) }
{
    match raw {
        Raw::Leaf(token) => Ok(Shape {
            good: true,
            tag: tag_in(token)?,
        }),
        Raw::Node(production, parts) => {
            if reads_tags(*production) {
                let shapes = shapes_of(alloc, parts.as_slice())?;
                shape_with(*production, shapes.as_slice())
            } else {
                Ok(Shape {
                    good: are_shaped(alloc, parts.as_slice())?,
                    tag: None,
                })
            }
        }
    }
}

#[cycle(shapes)]
fn are_shaped(alloc: Global, raws: &[Raw]) -> Result<bool, AllocError>
    ensures { IfOk result (λ good. good ≡ list_all is_good (map shape_of raws.now)) }
{
    for raw in raws {
        if !shape_of(alloc, raw)?.good {
            return Ok(false);
        }
    }
    Ok(true)
}

#[cycle(shapes)]
fn shapes_of(alloc: Global, raws: &[Raw]) -> Result<List<Shape>, AllocError>
    ensures { IfOk result (λ shapes. shapes ≡ map shape_of raws.now) }
{
    let mut shapes = Vec::with_capacity(alloc, raws.len())?;
    for raw in raws {
        shapes.push(shape_of(alloc, raw)?)?;
    }
    Ok(List::of_vec(shapes))
}

/// Whether the tags of direct elements end alike, and none of their attributes is `xmlns`.
pub fn is_shaped(alloc: Global, raw: &Raw) -> Result<bool, AllocError>
    ensures { IfOk result (λ shaped. shaped ≡ is_shaped raw.now) }
{
    Ok(shape_of(alloc, raw)?.good)
}

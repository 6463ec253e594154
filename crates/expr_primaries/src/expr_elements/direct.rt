// Direct elements.
ghost use Rattle.std.specs.Prelude.{◌≡◌, ◌++◌, ◌∷◌, [], IfOk};
ghost use Rattle.expr_rules.specs.declared.expr_meant.meant.Meant.TheVariants.{Content, Expr as as_expr};
ghost use Rattle.xt_syntax.specs.declared.exprs.Expr.TheVariants.{Comma};
ghost use Rattle.expr_primaries.specs.ExprElements.Space.{parts_of};
ghost use Rattle.expr_primaries.specs.ExprElements.Direct.{attr_and, attrs_in, content_or, content_in, element, child, attribute, enclosed};

use crate::expr_elements::space::parts_of;
use bound_prefixes::BoundPrefixes;
use expr_rules::expr_meant::{Meant, expr_in, no_items};
use expr_rules::expr_names::no_text;
use expr_rules::node_name_of;
use std::alloc::{AllocError, Global};
use xt_names::{List, Shared, Text};
use xt_syntax::{DirectAttr, Expr, Part};

#[tactic(auto, unfolding(crate::specs::ExprElements::Direct::attr_and))]
fn push_attr(attrs: Vec<DirectAttr>, part: &Meant) -> Result<Vec<DirectAttr>, AllocError>
    ensures { IfOk result (λ more. more.items ≡ attrs.items ++ attr_and part.now []) }
{
    let mut attrs = attrs;
    if let Meant::Attribute(attr) = part {
        attrs.push(attr.copy()?)?;
    }
    Ok(attrs)
}

fn attrs_in(alloc: Global, parts: &[Meant]) -> Result<Shared<List<DirectAttr>>, AllocError>
    ensures { IfOk result (λ attrs. attrs ≡ attrs_in parts.now) }
{
    let mut attrs = Vec::new(alloc);
    for part in parts {
        attrs = push_attr(attrs, part)?;
    }
    Shared::make(alloc, List::of_vec(attrs))
}

#[tactic(auto, unfolding(crate::specs::ExprElements::Direct::content_or))]
fn content_in(alloc: Global, parts: &[Meant]) -> Result<Shared<List<Part>>, AllocError>
    ensures { IfOk result (λ all. all ≡ content_in parts.now) }
{
    for part in parts {
        if let Meant::Content(all) = part {
            return all.copy();
        }
    }
    Shared::make(alloc, List::new(alloc))
}

fn element_expr(
    alloc: Global,
    bound: &BoundPrefixes,
    default: &Text,
    parts: &[Meant],
) -> Result<Shared<Expr>, AllocError>
    ensures { IfOk result (λ e. e ≡ element bound.now default.now parts.now) }
{
    match parts {
        [] => no_items(alloc),
        [tag, rest @ ..] => {
            let name = node_name_of(alloc, bound, default, tag)?;
            let attrs = attrs_in(alloc, rest)?;
            let content = content_in(alloc, rest)?;
            Shared::make(alloc, Expr::Direct(name, attrs, content))
        }
    }
}

/// `()`, where a part is missing.
pub(crate) fn nothing(alloc: Global) -> Result<Meant, AllocError>
    ensures { IfOk result (λ made. made ≡ as_expr (Comma [])) }
{
    Ok(Meant::Expr(no_items(alloc)?))
}

/// `<n a="..">..</n>`.
pub fn element(
    alloc: Global,
    bound: &BoundPrefixes,
    default: &Text,
    parts: &[Meant],
) -> Result<Meant, AllocError>
    ensures { IfOk result (λ made. made ≡ as_expr (element bound.now default.now parts.now)) }
{
    Ok(Meant::Expr(element_expr(alloc, bound, default, parts)?))
}

/// The same within the content of another one.
pub fn child(
    alloc: Global,
    bound: &BoundPrefixes,
    default: &Text,
    parts: &[Meant],
) -> Result<Meant, AllocError>
    ensures { IfOk result (λ made. made ≡ child bound.now default.now parts.now) }
{
    Ok(Meant::Part(Part::Child(element_expr(alloc, bound, default, parts)?)))
}

/// `a=".."`.
pub fn attribute(alloc: Global, bound: &BoundPrefixes, parts: &[Meant]) -> Result<Meant, AllocError>
    ensures { IfOk result (λ made. made ≡ attribute bound.now parts.now) }
{
    match parts {
        [] => Ok(Meant::Mark),
        [front, rest @ ..] => {
            let none = no_text(alloc)?;
            let name = node_name_of(alloc, bound, &none, front)?;
            let parts = parts_of(alloc, false, rest)?;
            Ok(Meant::Attribute(DirectAttr { name, parts }))
        }
    }
}

/// The whole content of an element.
pub fn content(alloc: Global, strip: bool, parts: &[Meant]) -> Result<Meant, AllocError>
    ensures { IfOk result (λ made. made ≡ Content (parts_of strip parts.now)) }
{
    Ok(Meant::Content(parts_of(alloc, strip, parts)?))
}

/// `{ a }` within content or an attribute.
pub fn enclosed(alloc: Global, parts: &[Meant]) -> Result<Meant, AllocError>
    ensures { IfOk result (λ made. made ≡ enclosed parts.now) }
{
    Ok(Meant::Part(Part::Enclosed(expr_in(alloc, parts)?)))
}

ghost use Rattle.std.specs.Prelude.{◌≡◌, ◌++◌, ◌+◌, ◌≤◌, [], drop, length, IfOk, OnOk};
ghost use Rattle.xt_tree.specs.TreeView.{forest_of};
ghost use Rattle.sheet_table.specs.SheetNodes.Cleaned.{cleaned, elements_in, is_text, element_node};

use crate::sheet_nodes::pending::Pending;
use crate::{XslElement, xsl_element};
use std::alloc::{AllocError, Global};
use xt_names::{Binding, List, Name, Shared, Text, copy_binding_list};
use xt_tree::{Attrs, Tree};

/// A part of a stylesheet (XSLT 2.0, 4.2).
#[derive(Drop)]
#[cycle(node)]
pub enum Node {
    /// An element: the namespace declarations that are written on it, its name, its attributes and
    /// its content.
    Elem(Shared<List<Binding>>, Name, Attrs, Shared<List<Node>>),
    /// A text that is not of white space alone, or stands in `xsl:text`.
    Chars(Text),
}

/// The nodes that the trees stand for, and the place after the declarations of their elements,
/// which stand in `declared` from this place on in the order of the document. White space is kept
/// where `keep` says so. It takes one walk (XSLT 2.0, 4.2).
#[cycle(clean)]
pub fn clean(
    alloc: Global,
    keep: bool,
    declared: &[List<Binding>],
    from: usize,
    trees: &[Tree],
) -> Result<(List<Node>, usize), AllocError>
    requires { from + elements_in (forest_of trees.now) ≤ length declared.now }
    ensures nodes { IfOk result (λ r. r.0 ≡ cleaned keep (drop from declared.now) [] (forest_of trees.now)) }
    ensures next { IfOk result (λ r. r.1 ≡ from + elements_in (forest_of trees.now)) }
{
    let mut out = List::new(alloc);
    let mut pending = Pending::Nothing;
    let mut next = from;
    for tree in trees {
        match tree {
            Tree::Elem(name, attributes, kids) => {
                pending.flush(keep, &mut out)?;
                pending = Pending::Nothing;
                let (node, behind) = clean_element(
                    alloc,
                    declared,
                    next,
                    name,
                    attributes,
                    kids.as_slice(),
                )?;
                out.push(node)?;
                next = behind;
            }
            Tree::Text(text) => pending = pending.with(alloc, text)?,
            Tree::Doc(_) | Tree::Comment(_) | Tree::Pi(_, _) | Tree::Attr(_, _) => {}
        }
    }
    pending.flush(keep, &mut out)?;
    Ok((out, next))
}

#[cycle(clean)]
fn clean_element(
    alloc: Global,
    declared: &[List<Binding>],
    from: usize,
    name: &Name,
    attributes: &Attrs,
    kids: &[Tree],
) -> Result<(Node, usize), AllocError>
    requires { from + 1 + elements_in (forest_of kids.now) ≤ length declared.now }
    ensures node { IfOk result (λ r. r.0 ≡ element_node (drop from declared.now) name.now attributes.now (forest_of kids.now)) }
    ensures next { IfOk result (λ r. r.1 ≡ from + 1 + elements_in (forest_of kids.now)) }
{
    let own = Shared::make(alloc, copy_binding_list(&declared[from])?)?;
    let (nodes, next) = clean(alloc, is_text(name), declared, from + 1, kids)?;
    let nodes = Shared::make(alloc, nodes)?;
    Ok((
        Node::Elem(own, name.copy()?, attributes.copy()?, nodes),
        next,
    ))
}

#[tactic(auto, unfolding(crate::specs::SheetNodes::Cleaned::is_text))]
fn is_text(name: &Name) -> bool
    ensures { result ≡ is_text name.now }
{
    matches!(xsl_element(name), Some(XslElement::Text))
}

// Links to other modules.
ghost use Rattle.std.specs.Prelude.{◌≡◌, ◌++◌, IfOk, OnOk};
ghost use Rattle.std.specs.Option.{option_copied};
ghost use Rattle.xt_tree.specs.TreeView.{forest_of};
ghost use Rattle.sheet_table.specs.Elements.{xsl_element};
ghost use Rattle.sheet_table.specs.Attributes.{attribute};
ghost use Rattle.module_loading.specs.ModuleReader.Links.{document_content, root_content, link, link_of};
ghost use Rattle.module_loading.specs.ModuleReader.Links.{links_in, links_of};
ghost use Rattle.std.specs.Prelude.{codes};

use doc_reader::Scoped;
use sheet_modules::Link;
use sheet_table::{XslElement, attribute, xsl_element};
use std::alloc::{AllocError, Global};
use xt_names::{List, Name};
use xt_tree::{Attribute, Tree};

/// What the document holds: its root element, and what stands beside it (XDM, 6.1). A tree that is
/// no document holds nothing.
pub fn document_content(tree: &Tree) -> &[Tree]
    ensures { forest_of result.now ≡ document_content tree.now }
{
    match tree {
        Tree::Doc(kids) => kids.as_slice(),
        _ => &[],
    }
}

/// What the root element holds.
fn root_content(trees: &[Tree]) -> &[Tree]
    ensures { forest_of result.now ≡ root_content (forest_of trees.now) }
{
    for tree in trees {
        match tree {
            Tree::Elem(_, _, kids) => return kids.as_slice(),
            Tree::Doc(_) | Tree::Text(_) | Tree::Comment(_) | Tree::Pi(_, _) | Tree::Attr(_, _) =>
                {}
        }
    }
    &[]
}

/// Puts the link at the end.
fn push_link(
    links: &mut List<Link>,
    import: bool,
    before: u32,
    attributes: &[Attribute],
) -> Result<(), AllocError>
    ensures { OnOk result (links.new ≡ links.old
        ++ link import before (attribute attributes.now (codes "href"))) }
{
    match attribute(attributes, "href") {
        None => Ok(()),
        Some(href) => links.push(Link {
            import,
            href: href.copy()?,
            before,
        }),
    }
}

/// Puts the link that the element is at the end, if it is one.
fn push_if_link(
    links: &mut List<Link>,
    before: u32,
    name: &Name,
    attributes: &[Attribute],
) -> Result<(), AllocError>
    ensures { OnOk result (links.new ≡ links.old
        ++ link_of (xsl_element name.now) before (attribute attributes.now (codes "href"))) }
{
    match xsl_element(name) {
        Some(XslElement::Import) => push_link(links, true, before, attributes),
        Some(XslElement::Include) => push_link(links, false, before, attributes),
        _ => Ok(()),
    }
}

fn links_in(alloc: Global, trees: &[Tree]) -> Result<List<Link>, AllocError>
    ensures { IfOk result (λ links. links ≡ links_in 0 (forest_of trees.now)) }
{
    let mut links = List::new(alloc);
    let mut before: u32 = 0;
    for tree in trees {
        match tree {
            Tree::Elem(name, attributes, _) => {
                push_if_link(&mut links, before, name, attributes.as_slice())?;
                before = before.saturating_add(1);
            }
            Tree::Doc(_) | Tree::Text(_) | Tree::Comment(_) | Tree::Pi(_, _) | Tree::Attr(_, _) =>
                {}
        }
    }
    Ok(links)
}

/// The links of the module, in order: the children `xsl:import` and `xsl:include` of the root that
/// have an `href` (XSLT 2.0, 3.10).
#[tactic(auto, unfolding(crate::specs::ModuleReader::Links::links_of))]
pub fn links_of(alloc: Global, document: &Scoped) -> Result<List<Link>, AllocError>
    ensures { IfOk result (λ links. links ≡ links_of document.now.tree) }
{
    links_in(alloc, root_content(document_content(&document.tree)))
}

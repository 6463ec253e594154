// The forest of a stylesheet of the first form, level by level.
ghost use Rattle.std.specs.Prelude.{◌≡◌, false};
ghost use Rattle.sheet_meaning.specs.First.{is_first_sheet, is_rooted, is_stylesheet, are_templates, is_template, is_content, is_blank};
ghost use Rattle.xt_tree.specs.TreeView.{forest_of};
ghost use Rattle.sheet_reader.specs.Parts.{is_root_part, is_declaration, is_instruction, is_apply_templates, is_literal, is_blank_part};

use crate::attributes::{is_match, is_none, is_version};
use crate::names;
use xt_names::{Name, is_in_xslt};
use xt_tree::{Attribute, Tree, is_white};

/// How many literal elements may be nested in a template.
const MAX_NESTING: u32 = 40;

/// Whether the tree is a stylesheet of the first form (XSLT 2.0, 3.6, 5.7, 6.1 and 6.3).
pub fn is_first_sheet(tree: &Tree) -> bool
    ensures { result ≡ is_first_sheet tree.now }
{
    match tree {
        Tree::Doc(kids) => is_rooted(kids.as_slice()),
        _ => false,
    }
}

/// Whether exactly one child of the document is an element, and that one the root of a stylesheet.
fn is_rooted(kids: &[Tree]) -> bool
    ensures { result ≡ is_rooted false (forest_of kids.now) }
{
    let mut seen = false;
    for tree in kids {
        if !is_root_part(seen, tree) {
            return false;
        }
        seen = seen | matches!(tree, Tree::Elem(_, _, _));
    }
    seen
}

fn is_root_part(seen: bool, tree: &Tree) -> bool
    ensures { result ≡ is_root_part seen tree.now }
{
    match tree {
        Tree::Elem(name, attributes, kids) => !seen
            && is_stylesheet(name, attributes.as_slice(), kids.as_slice()),
        Tree::Text(text) => is_white(text),
        Tree::Comment(_) | Tree::Pi(_, _) => true,
        Tree::Doc(_) | Tree::Attr(_, _) => false,
    }
}

fn is_stylesheet(name: &Name, attributes: &[Attribute], kids: &[Tree]) -> bool
    ensures { result ≡ is_stylesheet name.now attributes.now (forest_of kids.now) }
{
    names::is_stylesheet(name) && is_version(attributes) && are_templates(kids)
}

/// Whether the children of the root are templates.
fn are_templates(kids: &[Tree]) -> bool
    ensures { result ≡ are_templates (forest_of kids.now) }
{
    for tree in kids {
        if !is_declaration(tree) {
            return false;
        }
    }
    true
}

fn is_declaration(tree: &Tree) -> bool
    ensures { result ≡ is_declaration tree.now }
{
    match tree {
        Tree::Elem(name, attributes, kids) => is_template(
            name,
            attributes.as_slice(),
            kids.as_slice(),
        ),
        Tree::Text(text) => is_white(text),
        Tree::Comment(_) | Tree::Pi(_, _) => true,
        Tree::Doc(_) | Tree::Attr(_, _) => false,
    }
}

fn is_template(name: &Name, attributes: &[Attribute], kids: &[Tree]) -> bool
    ensures { result ≡ is_template name.now attributes.now (forest_of kids.now) }
{
    names::is_template(name) && is_match(attributes) && is_content(MAX_NESTING, kids)
}

/// Whether a template or a literal element may hold the trees, where so many literal elements may be nested.
#[cycle(content)]
fn is_content(room: u32, content: &[Tree]) -> bool
    ensures { result ≡ is_content room (forest_of content.now) }
{
    for tree in content {
        if !is_instruction(room, tree) {
            return false;
        }
    }
    true
}

#[cycle(content)]
fn is_instruction(room: u32, tree: &Tree) -> bool
    ensures { result ≡ is_instruction room tree.now }
{
    match tree {
        Tree::Elem(name, attributes, kids) => {
            if is_in_xslt(name) {
                is_apply_templates(name, attributes.as_slice(), kids.as_slice())
            } else {
                is_literal(room, name, attributes.as_slice(), kids.as_slice())
            }
        }
        Tree::Text(_) => true,
        Tree::Doc(_) | Tree::Comment(_) | Tree::Pi(_, _) | Tree::Attr(_, _) => false,
    }
}

/// Whether the element is a literal element, whose name has no namespace.
#[cycle(content)]
fn is_literal(room: u32, name: &Name, attributes: &[Attribute], kids: &[Tree]) -> bool
    ensures { result ≡ is_literal room name.now attributes.now (forest_of kids.now) }
{
    name.uri.is_empty() && is_none(attributes) && room > 0 && is_content(room - 1, kids)
}

fn is_apply_templates(name: &Name, attributes: &[Attribute], kids: &[Tree]) -> bool
    ensures { result ≡ is_apply_templates name.now attributes.now (forest_of kids.now) }
{
    names::is_apply_templates(name) && is_none(attributes) && is_blank(kids)
}

/// Whether the trees are texts of white space alone.
fn is_blank(kids: &[Tree]) -> bool
    ensures { result ≡ is_blank (forest_of kids.now) }
{
    for tree in kids {
        if !is_blank_part(tree) {
            return false;
        }
    }
    true
}

fn is_blank_part(tree: &Tree) -> bool
    ensures { result ≡ is_blank_part tree.now }
{
    match tree {
        Tree::Text(text) => is_white(text),
        _ => false,
    }
}

// The trees that constructors make, before their limits are looked at.
ghost use Rattle.std.specs.Prelude.{◌≡◌, ◌++◌, IfOk, OnOk};
ghost use Rattle.std.specs.Str.{chars};
ghost use Rattle.xt_names.specs.Marks.{is_white};
ghost use Rattle.xt_tree.specs.declared.trees.Tree.TheVariants.{Text as a_text, Attr as an_attribute};
ghost use Rattle.node_builder.specs.Answers.{Makes};
ghost use Rattle.node_builder.specs.Made.{Gives};
ghost use Rattle.node_builder.specs.Trees.{element_of, document_of, comment_of, pi_of, without_white, kept_char};

use crate::contents::content_of;
use crate::faults::BuildFault;
use crate::kinds::{Duplicates, Holder};
use std::alloc::{AllocError, Global};
use xdm_items::ItemList;
use xt_names::{Code, DynamicCode, Name, Text, TextBuilder, begins_white, ends_with, has_pair};
use xt_tree::{Attrs, Kids, Tree};

#[tactic(auto, unfolding(crate::specs::Trees::element_of))]
pub(crate) fn element_tree(
    alloc: Global,
    name: Name,
    content: &ItemList,
    side: Duplicates,
) -> Result<Tree, BuildFault>
    ensures { Makes result (element_of side name content.now) }
{
    let content = content_of(alloc, side, Holder::Element, content)?;
    let attributes = Attrs::make(alloc, content.attributes)?;
    let kids = Kids::make(alloc, content.kids)?;
    Ok(Tree::Elem(name, attributes, kids))
}

#[tactic(auto, unfolding(crate::specs::Trees::document_of))]
pub(crate) fn document_tree(
    alloc: Global,
    content: &ItemList,
    side: Duplicates,
) -> Result<Tree, BuildFault>
    ensures { Makes result (document_of side content.now) }
{
    let content = content_of(alloc, side, Holder::Document, content)?;
    let kids = Kids::make(alloc, content.kids)?;
    Ok(Tree::Doc(kids))
}

pub(crate) fn attribute_tree(alloc: Global, name: Name, value: &str) -> Result<Tree, BuildFault>
    ensures { Makes result (Gives (an_attribute name (chars value.now))) }
{
    Ok(Tree::Attr(name, Text::make(alloc, value)?))
}

pub(crate) fn text_tree(alloc: Global, value: &str) -> Result<Tree, BuildFault>
    ensures { Makes result (Gives (a_text (chars value.now))) }
{
    Ok(Tree::Text(Text::make(alloc, value)?))
}

#[tactic(auto, unfolding(crate::specs::Trees::comment_of))]
pub(crate) fn comment_tree(alloc: Global, value: &str) -> Result<Tree, BuildFault>
    ensures { Makes result (comment_of (chars value.now)) }
{
    if has_pair(value, '-', '-') || ends_with(value, '-') {
        return Err(BuildFault::Error(Code::Dynamic(DynamicCode::XQDY0072)));
    }
    Ok(Tree::Comment(Text::make(alloc, value)?))
}

#[tactic(auto, unfolding(crate::specs::Trees::pi_of))]
pub(crate) fn pi_tree(alloc: Global, target: &str, value: &str) -> Result<Tree, BuildFault>
    ensures { Makes result (pi_of (chars target.now) (chars value.now)) }
{
    let content = without_white(alloc, value)?;
    if has_pair(content.as_str(), '?', '>') {
        return Err(BuildFault::Error(Code::Dynamic(DynamicCode::XQDY0026)));
    }
    Ok(Tree::Pi(Text::make(alloc, target)?, content))
}

/// The text without the white space at its front.
fn without_white(alloc: Global, s: &str) -> Result<Text, AllocError>
    ensures { IfOk result (λ text. text ≡ without_white (chars s.now)) }
{
    if !begins_white(s) {
        return Text::make(alloc, s);
    }
    let mut text = TextBuilder::new(alloc);
    let mut begun = false;
    for c in s.chars() {
        begun = begun | !is_white(c);
        push_kept(&mut text, begun, c)?;
    }
    text.finish()
}

/// Puts the character at the end, if it is kept.
fn push_kept(text: &mut TextBuilder, kept: bool, c: char) -> Result<(), AllocError>
    ensures { OnOk result (text.new ≡ text.old ++ kept_char kept c) }
{
    if !kept {
        return Ok(());
    }
    text.push(c)
}

/// Whether XML 1.0 takes the character as white space.
fn is_white(c: char) -> bool
    ensures { result ≡ is_white c }
{
    c == ' ' || c == '\t' || c == '\n' || c == '\r'
}

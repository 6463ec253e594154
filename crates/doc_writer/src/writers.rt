ghost use Rattle.std.specs.Prelude.{◌≡◌, ◌++◌, [], take, IfOk, IfErr, OnOk, Some};
ghost use Rattle.xt_tree.specs.TreeView.{forest_of};
ghost use Rattle.doc_writer.specs.Causes.{HasCause, HasWriteCause};
ghost use Rattle.doc_writer.specs.Heads.{head_of};
ghost use Rattle.name_scopes.specs.Places.{bindings_of};
ghost use Rattle.doc_writer.specs.Written.{qualified, quoted, declaration, declarations, written_attribute, written_attributes, later_prefixes, start_tag, is_end, element_rest, written_comment, written_pi, written_forest, written_node, written_text, written_tree, written_bare};
ghost use Rattle.doc_writer.specs.Scopes.{first_scope};

use crate::causes::WriteRefusal;
use crate::escapes::{push_text, push_value};
use crate::heads::Heads;
use crate::plain::push_ascii;
use crate::scopes::first_scope;
use crate::used::UsedPrefixes;
use name_scopes::Entry;
use std::alloc::{AllocError, Global};
use xt_names::{Binding, Code, DynamicCode, Name, Text, TextBuilder};
use xt_tree::{Attribute, Tree};

/// The bytes of the tree: the XML declaration, and then its nodes. An attribute has no text and is refused with SENR0001,
/// and nothing else is (XSLT 2.0 and XQuery 1.0 Serialization, 2 and 5).
pub fn write_tree(alloc: Global, tree: &Tree) -> Result<Vec<u8>, WriteRefusal>
    ensures written { IfOk result (λ bytes. written_tree tree.now ≡ Some bytes.items) }
    ensures refused { IfErr result (HasWriteCause tree.now) }
{
    if let Tree::Attr(_, _) = tree {
        return Err(WriteRefusal::Code(Code::Dynamic(DynamicCode::SENR0001)));
    }
    let text = write_text(alloc, tree)?;
    Ok(text.into_bytes())
}

/// The bytes of the tree without the XML declaration. An attribute has no text and is refused with SENR0001, and nothing else
/// is.
pub fn write_tree_bare(alloc: Global, tree: &Tree) -> Result<Vec<u8>, WriteRefusal>
    ensures written { IfOk result (λ bytes. written_bare tree.now ≡ Some bytes.items) }
    ensures refused { IfErr result (HasCause (written_bare tree.now)) }
{
    if matches!(tree, Tree::Attr(_, _)) {
        return Err(WriteRefusal::Code(Code::Dynamic(DynamicCode::SENR0001)));
    }
    let text = write_bare_text(alloc, tree)?;
    Ok(text.into_bytes())
}

fn write_text(alloc: Global, tree: &Tree) -> Result<TextBuilder, AllocError>
    ensures { IfOk result (λ text. text ≡ written_text tree.now) }
{
    let mut writer = Writer::new(alloc)?;
    push_ascii(
        &mut writer.out,
        "<?xml version=\"1.0\" encoding=\"UTF-8\"?>",
    )?;
    writer.write_node(tree)?;
    Ok(writer.into_text())
}

fn write_bare_text(alloc: Global, tree: &Tree) -> Result<TextBuilder, AllocError>
    ensures { IfOk result (λ text. text ≡ written_node first_scope tree.now) }
{
    let mut writer = Writer::new(alloc)?;
    writer.write_node(tree)?;
    Ok(writer.into_text())
}

/// What is written so far, and the scope in which the next node stands.
#[derive(Drop)]
struct Writer {
    alloc: Global,
    out: TextBuilder,
    heads: Heads,
}

impl Writer {
    /// Nothing is written yet.
    fn new(alloc: Global) -> Result<Writer, AllocError>
        ensures out { IfOk result (λ writer. writer.out ≡ []) }
        ensures scope { IfOk result (λ writer. writer.heads.scope ≡ first_scope) }
    {
        Ok(Writer {
            alloc,
            out: TextBuilder::new(alloc),
            heads: Heads {
                scope: first_scope(alloc)?,
                used: UsedPrefixes::new(alloc),
            },
        })
    }

    fn into_text(self) -> TextBuilder
        ensures { result ≡ self.out }
    {
        self.out
    }

    /// Writes the trees one after another.
    #[cycle(write)]
    fn write_trees(&mut self, trees: &[Tree]) -> Result<(), AllocError>
        ensures out { OnOk result (self.new.out ≡ self.old.out ++ written_forest self.old.heads.scope (forest_of trees.now)) }
        ensures scope { OnOk result (self.new.heads.scope ≡ self.old.heads.scope) }
    {
        for tree in trees {
            self.write_node(tree)?;
        }
        Ok(())
    }

    #[cycle(write)]
    fn write_node(&mut self, tree: &Tree) -> Result<(), AllocError>
        ensures out { OnOk result (self.new.out ≡ self.old.out ++ written_node self.old.heads.scope tree.now) }
        ensures scope { OnOk result (self.new.heads.scope ≡ self.old.heads.scope) }
    {
        match tree {
            Tree::Doc(kids) => self.write_trees(kids.as_slice()),
            Tree::Elem(name, attrs, kids) => {
                self.write_element(name, attrs.as_slice(), kids.as_slice())
            }
            Tree::Text(text) => push_text(&mut self.out, text),
            Tree::Comment(text) => push_comment(&mut self.out, text),
            Tree::Pi(target, content) => push_pi(&mut self.out, target, content),
            Tree::Attr(_, _) => Ok(()),
        }
    }

    #[cycle(write)]
    fn write_element(
        &mut self,
        name: &Name,
        attributes: &[Attribute],
        kids: &[Tree],
    ) -> Result<(), AllocError>
        ensures out { OnOk result (self.new.out ≡ self.old.out ++ written_node self.old.heads.scope (Tree.Elem name.now attributes.now (forest_of kids.now))) }
        ensures scope { OnOk result (self.new.heads.scope ≡ self.old.heads.scope) }
    {
        let place = self.write_start(name, attributes)?;
        self.write_rest(name, kids)?;
        self.heads.scope.truncate(place);
        Ok(())
    }

    /// Writes what follows a start tag.
    #[cycle(write)]
    #[tactic(auto, unfolding(crate::specs::Written::element_rest))]
    fn write_rest(&mut self, name: &Name, kids: &[Tree]) -> Result<(), AllocError>
        ensures out { OnOk result (self.new.out ≡ self.old.out ++ element_rest name.now (is_end (forest_of kids.now)) (written_forest self.old.heads.scope (forest_of kids.now))) }
        ensures scope { OnOk result (self.new.heads.scope ≡ self.old.heads.scope) }
    {
        if is_end(kids) {
            return push_ascii(&mut self.out, "/>");
        }
        push_ascii(&mut self.out, ">")?;
        self.write_trees(kids)?;
        push_ascii(&mut self.out, "</")?;
        push_name(&mut self.out, &name.prefix, &name.local)?;
        push_ascii(&mut self.out, ">")
    }

    /// Writes the start tag but for its last characters; the declarations stand from the answered place on.
    #[tactic(auto, unfolding(crate::specs::Written::start_tag))]
    fn write_start(&mut self, name: &Name, attributes: &[Attribute]) -> Result<usize, AllocError>
        ensures out { OnOk result (self.new.out ≡ self.old.out ++ start_tag (head_of self.old.heads.scope name.now attributes.now) name.now attributes.now) }
        ensures scope { OnOk result (self.new.heads.scope ≡ (head_of self.old.heads.scope name.now attributes.now).scope) }
        ensures outer { IfOk result (λ place. take place self.new.heads.scope ≡ self.old.heads.scope) }
    {
        let place = self.heads.open(self.alloc, name, attributes)?;
        push_ascii(&mut self.out, "<")?;
        push_name(&mut self.out, &name.prefix, &name.local)?;
        push_declarations(&mut self.out, self.heads.scope.from(place))?;
        push_attributes(&mut self.out, self.heads.used.as_slice(), attributes)?;
        Ok(place)
    }
}

#[tactic(auto, using(crate::proofs::WrittenLemmas::is_end_of))]
fn is_end(kids: &[Tree]) -> bool
    ensures { result ≡ is_end (forest_of kids.now) }
{
    kids.is_empty()
}

#[tactic(auto, unfolding(crate::specs::Written::qualified))]
fn push_name(out: &mut TextBuilder, prefix: &Text, local: &Text) -> Result<(), AllocError>
    ensures { OnOk result (out.new ≡ out.old ++ qualified prefix.now local.now) }
{
    if !prefix.is_empty() {
        out.push_text(prefix)?;
        push_ascii(out, ":")?;
    }
    out.push_text(local)
}

#[tactic(auto, unfolding(crate::specs::Written::quoted))]
fn push_quoted(out: &mut TextBuilder, value: &Text) -> Result<(), AllocError>
    ensures { OnOk result (out.new ≡ out.old ++ quoted value.now) }
{
    push_ascii(out, "=\"")?;
    push_value(out, value)?;
    push_ascii(out, "\"")
}

fn push_declarations(out: &mut TextBuilder, entries: &[Entry]) -> Result<(), AllocError>
    ensures { OnOk result (out.new ≡ out.old ++ declarations (bindings_of entries.now)) }
{
    for entry in entries {
        push_declaration(out, &entry.binding)?;
    }
    Ok(())
}

#[tactic(auto, unfolding(crate::specs::Written::declaration))]
fn push_declaration(out: &mut TextBuilder, binding: &Binding) -> Result<(), AllocError>
    ensures { OnOk result (out.new ≡ out.old ++ declaration binding.now) }
{
    push_ascii(out, " xmlns")?;
    if !binding.prefix.is_empty() {
        push_ascii(out, ":")?;
        out.push_text(&binding.prefix)?;
    }
    push_quoted(out, &binding.uri)
}

/// Writes the attributes with their prefixes, of which the first is that of the element.
fn push_attributes(
    out: &mut TextBuilder,
    used: &[Text],
    attributes: &[Attribute],
) -> Result<(), AllocError>
    ensures { OnOk result (out.new ≡ out.old ++ written_attributes (later_prefixes used.now) attributes.now) }
{
    let mut left = later_prefixes(used);
    for attribute in attributes {
        let [prefix, rest @ ..] = left else {
            return Ok(());
        };
        push_attribute(out, prefix, attribute)?;
        left = rest;
    }
    Ok(())
}

fn later_prefixes(used: &[Text]) -> &[Text]
    ensures { result.now ≡ later_prefixes used.now }
{
    match used {
        [_, rest @ ..] => rest,
        [] => &[],
    }
}

#[tactic(auto, unfolding(crate::specs::Written::written_attribute))]
fn push_attribute(
    out: &mut TextBuilder,
    prefix: &Text,
    attribute: &Attribute,
) -> Result<(), AllocError>
    ensures { OnOk result (out.new ≡ out.old ++ written_attribute prefix.now attribute.now) }
{
    push_ascii(out, " ")?;
    push_name(out, prefix, &attribute.name.local)?;
    push_quoted(out, &attribute.value)
}

#[tactic(auto, unfolding(crate::specs::Written::written_comment))]
fn push_comment(out: &mut TextBuilder, text: &Text) -> Result<(), AllocError>
    ensures { OnOk result (out.new ≡ out.old ++ written_comment text.now) }
{
    push_ascii(out, "<!--")?;
    out.push_text(text)?;
    push_ascii(out, "-->")
}

#[tactic(auto, unfolding(crate::specs::Written::written_pi))]
fn push_pi(out: &mut TextBuilder, target: &Text, content: &Text) -> Result<(), AllocError>
    ensures { OnOk result (out.new ≡ out.old ++ written_pi target.now content.now) }
{
    push_ascii(out, "<?")?;
    out.push_text(target)?;
    if !content.is_empty() {
        push_ascii(out, " ")?;
        out.push_text(content)?;
    }
    push_ascii(out, "?>")
}

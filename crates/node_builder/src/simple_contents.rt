ghost use Rattle.std.specs.Prelude.{◌≡◌, ◌++◌, IfOk, OnOk};
ghost use Rattle.std.specs.Str.{chars};
ghost use Rattle.xt_tree.specs.Place.{subtree_of};
ghost use Rattle.node_builder.specs.Line.{line, no_line, run_gap, value_gap, with_part, with_each};
ghost use Rattle.node_builder.specs.Simple.{run, value, part_of, part_below, part_of_tree, simple_content};
ghost use Rattle.xt_atoms.specs.AtomTexts.{text_of};

use std::alloc::{AllocError, Global};
use xdm_items::{Item, ItemList};
use xt_atoms::to_text;
use xt_names::{Text, TextBuilder};
use xt_tree::{Node, Tree};

/// The simple content of the items (XSLT 2.0, 5.7.2): empty text nodes go, text nodes beside each other merge, and the
/// texts of what is left are joined with the separator.
pub fn simple(alloc: Global, items: &ItemList, separator: &str) -> Result<Text, AllocError>
    ensures { IfOk result (λ text. text ≡ simple_content (chars separator.now) items.now) }
{
    let mut builder = LineBuilder::new(alloc);
    for item in items.as_slice() {
        builder.push_item(alloc, item, separator)?;
    }
    builder.text.finish()
}

/// What the text ends with.
#[derive(Clone, Copy, PartialEq, Eq, Debug)]
pub(crate) enum End {
    /// There is no text yet.
    Nothing,
    /// The text of an item that is no text node.
    Value,
    /// A text node.
    Run,
}

/// Simple content while it is made.
#[derive(Drop)]
pub(crate) struct LineBuilder {
    text: TextBuilder,
    ending: End,
}

impl LineBuilder {
    /// No text yet.
    fn new(alloc: Global) -> LineBuilder
        ensures { line result ≡ no_line }
    {
        LineBuilder {
            text: TextBuilder::new(alloc),
            ending: End::Nothing,
        }
    }

    /// Takes one more item.
    fn push_item(&mut self, alloc: Global, item: &Item, separator: &str) -> Result<(), AllocError>
        ensures { OnOk result (line self.new ≡ with_part (chars separator.now) (line self.old) (part_of item.now)) }
    {
        match item {
            Item::Node(node) => self.push_tree(alloc, &node.subtree()?, separator),
            Item::Atom(atom) => self.push_value(&to_text(alloc, atom)?, separator),
        }
    }

    fn push_tree(&mut self, alloc: Global, tree: &Tree, separator: &str) -> Result<(), AllocError>
        ensures { OnOk result (line self.new ≡ with_part (chars separator.now) (line self.old) (part_of_tree tree.now)) }
    {
        match tree {
            Tree::Text(text) => self.push_run(text, separator),
            tree => self.push_value(&tree.string_value(alloc)?, separator),
        }
    }

    /// Puts a text node at the end.
    fn push_run(&mut self, text: &Text, separator: &str) -> Result<(), AllocError>
        ensures { OnOk result (line self.new ≡ with_part (chars separator.now) (line self.old) (run text.now)) }
    {
        if text.is_empty() {
            return Ok(());
        }
        self.push_run_gap(separator)?;
        self.text.push_text(text)?;
        self.ending = End::Run;
        Ok(())
    }

    /// Puts the text of another item at the end.
    fn push_value(&mut self, text: &Text, separator: &str) -> Result<(), AllocError>
        ensures { OnOk result (line self.new ≡ with_part (chars separator.now) (line self.old) (value text.now)) }
    {
        self.push_value_gap(separator)?;
        self.text.push_text(text)?;
        self.ending = End::Value;
        Ok(())
    }

    fn push_run_gap(&mut self, separator: &str) -> Result<(), AllocError>
        ensures text { OnOk result (self.new.text ≡ self.old.text ++ run_gap (chars separator.now) self.old.ending) }
        ensures ending { self.new.ending ≡ self.old.ending }
    {
        match self.ending {
            End::Value => self.text.push_str(separator),
            End::Nothing | End::Run => Ok(()),
        }
    }

    fn push_value_gap(&mut self, separator: &str) -> Result<(), AllocError>
        ensures text { OnOk result (self.new.text ≡ self.old.text ++ value_gap (chars separator.now) self.old.ending) }
        ensures ending { self.new.ending ≡ self.old.ending }
    {
        match self.ending {
            End::Nothing => Ok(()),
            End::Value | End::Run => self.text.push_str(separator),
        }
    }
}

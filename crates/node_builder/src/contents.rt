ghost use Rattle.std.specs.Prelude.{◌≡◌, OnOk};
ghost use Rattle.xt_tree.specs.Place.{subtree_of};
ghost use Rattle.node_builder.specs.Answers.{Makes, Becomes};
ghost use Rattle.node_builder.specs.Building.{built, empty, finished, with_text, with_space, with_kid, takes_attributes, with_attribute, with_tree, with_trees, with_opened, with_node, with_atom, with_item, with_items};
ghost use Rattle.node_builder.specs.Complex.{complex_content, misplaced};
ghost use Rattle.xt_atoms.specs.AtomTexts.{text_of};

use crate::attributes::distinct;
use crate::faults::BuildFault;
use crate::kinds::{Duplicates, Holder};
use crate::texts::{Pending, join, join_space, push_pending};
use std::alloc::{AllocError, Global};
use std::mem;
use xdm_items::{Item, ItemList};
use xt_atoms::{Atom, to_text};
use xt_names::{Code, DynamicCode, List, Name, QueryDynamicCode, SheetDynamicCode, Text};
use xt_tree::{Attribute, Node, Tree};

/// What an element or a document holds: its attributes, and its children.
#[derive(Drop)]
pub struct Content {
    pub attributes: List<Attribute>,
    pub kids: List<Tree>,
}

/// The complex content of the items (XSLT 2.0, 5.7.1; XQuery 1.0, 3.7.1.3), without a limit on levels or size.
pub fn content_of(
    alloc: Global,
    side: Duplicates,
    holder: Holder,
    items: &ItemList,
) -> Result<Content, BuildFault>
    ensures { Makes result (complex_content side holder items.now) }
{
    let mut builder = ContentBuilder::new(alloc);
    for item in items.as_slice() {
        builder.push_item(alloc, side, holder, item)?;
    }
    builder.finish(alloc, side)
}

/// Content while it is made.
#[derive(Drop)]
pub(crate) struct ContentBuilder {
    attributes: List<Attribute>,
    done: List<Tree>,
    pending: Pending,
    /// Whether there is any child.
    begun: bool,
    /// Whether an atom is at the end.
    after_atom: bool,
}

impl ContentBuilder {
    /// No content yet.
    fn new(alloc: Global) -> ContentBuilder
        ensures { built result ≡ empty }
    {
        ContentBuilder {
            attributes: List::new(alloc),
            done: List::new(alloc),
            pending: Pending::Nothing,
            begun: false,
            after_atom: false,
        }
    }

    /// Takes one more item.
    fn push_item(
        &mut self,
        alloc: Global,
        side: Duplicates,
        holder: Holder,
        item: &Item,
    ) -> Result<(), BuildFault>
        ensures { Becomes result (built self.new) (with_item side holder (built self.old) item.now) }
    {
        match item {
            Item::Node(node) => self.push_node(alloc, side, holder, node),
            Item::Atom(atom) => {
                self.push_atom(alloc, atom)?;
                Ok(())
            }
        }
    }

    /// Puts an atom at the end, and a space before it where it comes after an atom.
    fn push_atom(&mut self, alloc: Global, atom: &Atom) -> Result<(), AllocError>
        ensures { OnOk result (built self.new ≡ with_atom (built self.old) (text_of atom.now)) }
    {
        let text = to_text(alloc, atom)?;
        if self.after_atom {
            self.push_space(alloc)?;
        }
        self.push_text(alloc, &text)?;
        self.after_atom = true;
        Ok(())
    }

    /// Puts a node at the end, or the children of a document.
    fn push_node(
        &mut self,
        alloc: Global,
        side: Duplicates,
        holder: Holder,
        node: &Node,
    ) -> Result<(), BuildFault>
        ensures { Becomes result (built self.new) (with_node side holder (built self.old) (subtree_of node.now)) }
    {
        self.after_atom = false;
        self.push_opened(alloc, side, holder, node.subtree()?)
    }

    fn push_opened(
        &mut self,
        alloc: Global,
        side: Duplicates,
        holder: Holder,
        tree: Tree,
    ) -> Result<(), BuildFault>
        ensures { Becomes result (built self.new) (with_opened side holder (built self.old) tree) }
    {
        match tree {
            Tree::Doc(kids) => self.push_trees(alloc, side, holder, kids.as_slice()),
            tree => self.push_tree(alloc, side, holder, tree),
        }
    }

    fn push_trees(
        &mut self,
        alloc: Global,
        side: Duplicates,
        holder: Holder,
        trees: &[Tree],
    ) -> Result<(), BuildFault>
        ensures { Becomes result (built self.new) (with_trees side holder (built self.old) trees.now) }
    {
        for tree in trees {
            self.push_tree(alloc, side, holder, tree.copy()?)?;
        }
        Ok(())
    }

    /// Puts a tree at the end. A text joins the text before it, and an attribute comes before all children.
    fn push_tree(
        &mut self,
        alloc: Global,
        side: Duplicates,
        holder: Holder,
        tree: Tree,
    ) -> Result<(), BuildFault>
        ensures { Becomes result (built self.new) (with_tree side holder (built self.old) tree) }
    {
        match tree {
            Tree::Text(text) => {
                self.push_text(alloc, &text)?;
                Ok(())
            }
            Tree::Attr(name, value) => self.push_attribute(side, holder, name, value),
            tree => {
                self.push_kid(tree)?;
                Ok(())
            }
        }
    }

    fn push_text(&mut self, alloc: Global, text: &Text) -> Result<(), AllocError>
        ensures { OnOk result (built self.new ≡ with_text (built self.old) text.now) }
    {
        let pending = mem::replace(&mut self.pending, Pending::Nothing);
        self.pending = join(alloc, pending, text)?;
        self.begun = self.begun || !text.is_empty();
        Ok(())
    }

    fn push_space(&mut self, alloc: Global) -> Result<(), AllocError>
        ensures { OnOk result (built self.new ≡ with_space (built self.old)) }
    {
        let pending = mem::replace(&mut self.pending, Pending::Nothing);
        self.pending = join_space(alloc, pending)?;
        self.begun = true;
        Ok(())
    }

    #[tactic(auto, unfolding(crate::specs::Building::with_attribute))]
    fn push_attribute(
        &mut self,
        side: Duplicates,
        holder: Holder,
        name: Name,
        value: Text,
    ) -> Result<(), BuildFault>
        ensures { Becomes result (built self.new) (with_attribute side holder (built self.old) name value) }
    {
        if !self.takes_attributes(holder) {
            return Err(BuildFault::Error(misplaced(side, holder)));
        }
        self.attributes.push(Attribute { name, value })?;
        Ok(())
    }

    fn takes_attributes(&self, holder: Holder) -> bool
        ensures { result ≡ takes_attributes holder (built self.now) }
    {
        match holder {
            Holder::Element => !self.begun,
            Holder::Document => false,
        }
    }

    /// Puts a tree that is neither a text nor an attribute at the end.
    fn push_kid(&mut self, tree: Tree) -> Result<(), AllocError>
        ensures { OnOk result (built self.new ≡ with_kid (built self.old) tree) }
    {
        let pending = mem::replace(&mut self.pending, Pending::Nothing);
        push_pending(&mut self.done, pending)?;
        self.begun = true;
        self.done.push(tree)
    }

    /// The whole content.
    fn finish(self, alloc: Global, side: Duplicates) -> Result<Content, BuildFault>
        ensures { Makes result (finished side (built self)) }
    {
        let ContentBuilder {
            attributes,
            mut done,
            pending,
            ..
        } = self;
        push_pending(&mut done, pending)?;
        Ok(Content {
            attributes: distinct(alloc, side, attributes)?,
            kids: done,
        })
    }
}

/// The error of an attribute that cannot stand where it does.
fn misplaced(side: Duplicates, holder: Holder) -> Code
    ensures { result ≡ misplaced side holder }
{
    match (side, holder) {
        (Duplicates::KeepLast, Holder::Element) => Code::SheetDynamic(SheetDynamicCode::XTDE0410),
        (Duplicates::KeepLast, Holder::Document) => Code::SheetDynamic(SheetDynamicCode::XTDE0420),
        (Duplicates::Refuse, Holder::Element) => Code::QueryDynamic(QueryDynamicCode::XQTY0024),
        (Duplicates::Refuse, Holder::Document) => Code::Dynamic(DynamicCode::XPTY0004),
    }
}

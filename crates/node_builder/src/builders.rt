ghost use Rattle.std.specs.Prelude.{◌≡◌, IfOk, true, false};
ghost use Rattle.std.specs.Str.{chars};
ghost use Rattle.xt_names.specs.Classes.{is_xml_text, is_ncname_text};
ghost use Rattle.xt_tree.specs.Sound.{is_sound_name, is_sound_attribute, is_xml_in_any_case, is_sound_tree};
ghost use Rattle.xt_tree.specs.declared.trees.Tree.{Tree};
ghost use Rattle.xt_tree.specs.declared.trees.Tree.TheVariants.{Text as a_text, Attr as an_attribute};
ghost use Rattle.node_builder.specs.Answers.{Builds, Makes};
ghost use Rattle.node_builder.specs.SoundItems.{are_sound_items};
ghost use Rattle.node_builder.specs.Made.{Made, Gives};
ghost use Rattle.node_builder.specs.Trees.{numbered, is_within_limits, element_of, document_of, comment_of, pi_of};

use crate::faults::BuildFault;
use crate::kinds::Duplicates;
use crate::trees::{attribute_tree, comment_tree, document_tree, element_tree, pi_tree, text_tree};
use std::alloc::Global;
use xdm_items::ItemList;
use xt_names::{Code, DynamicCode, Name};
use xt_tree::{Node, Tree};

/// Makes nodes, each of which is the root of a tree of its own. The trees are numbered as they are made, so that their
/// order is that of their making. Each call fails with XTLM0001 where all numbers are used up, and with XTLM0002 where the tree
/// would have more than 2,000 levels of elements or 2^63-1 nodes; where a call fails no number is used.
#[derive(Drop)]
pub struct Builder {
    /// The number of the next tree.
    pub next: u64,
}

impl Builder {
    /// An element with these items as its content (XSLT 2.0, 11.2; XQuery 1.0, 3.7.3.1).
    pub fn element(
        &mut self,
        alloc: Global,
        name: Name,
        content: &ItemList,
        duplicates: Duplicates,
    ) -> Result<Node, BuildFault>
        ensures built { Builds self.old.next self.new.next result (numbered self.old.next (element_of duplicates name content.now)) }
        ensures sound { is_sound_name name ≡ true → are_sound_items content.now ≡ true → IfOk result (λ node. is_sound_tree node.tree ≡ true) }
    {
        let made = element_tree(alloc, name, content, duplicates);
        self.add(alloc, made)
    }

    /// A document with these items as its content (XSLT 2.0, 11.5; XQuery 1.0, 3.7.3.3).
    pub fn document(
        &mut self,
        alloc: Global,
        content: &ItemList,
        duplicates: Duplicates,
    ) -> Result<Node, BuildFault>
        ensures built { Builds self.old.next self.new.next result (numbered self.old.next (document_of duplicates content.now)) }
        ensures sound { are_sound_items content.now ≡ true → IfOk result (λ node. is_sound_tree node.tree ≡ true) }
    {
        let made = document_tree(alloc, content, duplicates);
        self.add(alloc, made)
    }

    /// An attribute (XSLT 2.0, 11.3; XQuery 1.0, 3.7.3.2).
    pub fn attribute(&mut self, alloc: Global, name: Name, value: &str) -> Result<Node, BuildFault>
        ensures built { Builds self.old.next self.new.next result (numbered self.old.next (Gives (an_attribute name (chars value.now)))) }
        ensures sound { is_sound_attribute name (chars value.now) ≡ true → IfOk result (λ node. is_sound_tree node.tree ≡ true) }
    {
        let made = attribute_tree(alloc, name, value);
        self.add(alloc, made)
    }

    /// A text (XSLT 2.0, 11.4; XQuery 1.0, 3.7.3.4).
    pub fn text(&mut self, alloc: Global, value: &str) -> Result<Node, BuildFault>
        ensures built { Builds self.old.next self.new.next result (numbered self.old.next (Gives (a_text (chars value.now)))) }
        ensures sound { is_xml_text (chars value.now) ≡ true → IfOk result (λ node. is_sound_tree node.tree ≡ true) }
    {
        let made = text_tree(alloc, value);
        self.add(alloc, made)
    }

    /// A comment; XQDY0072 where the value holds `--` or ends with `-` (XQuery 1.0, 3.7.3.6).
    pub fn comment(&mut self, alloc: Global, value: &str) -> Result<Node, BuildFault>
        ensures built { Builds self.old.next self.new.next result (numbered self.old.next (comment_of (chars value.now))) }
        ensures sound { is_xml_text (chars value.now) ≡ true → IfOk result (λ node. is_sound_tree node.tree ≡ true) }
    {
        let made = comment_tree(alloc, value);
        self.add(alloc, made)
    }

    /// A processing instruction, without the white space at the front of the value; XQDY0026 where the value holds `?>`
    /// (XQuery 1.0, 3.7.3.5).
    pub fn pi(&mut self, alloc: Global, target: &str, value: &str) -> Result<Node, BuildFault>
        ensures built { Builds self.old.next self.new.next result (numbered self.old.next (pi_of (chars target.now) (chars value.now))) }
        ensures sound { is_ncname_text (chars target.now) ≡ true → is_xml_in_any_case (chars target.now) ≡ false → is_xml_text (chars value.now) ≡ true → IfOk result (λ node. is_sound_tree node.tree ≡ true) }
    {
        let made = pi_tree(alloc, target, value);
        self.add(alloc, made)
    }

    /// The root of the tree that was made, with the next number.
    fn add(&mut self, alloc: Global, made: Result<Tree, BuildFault>) -> Result<Node, BuildFault>
        ensures { (o : Made Tree) → Makes made o → Builds self.old.next self.new.next result (numbered self.old.next o) }
    {
        if self.next == u64::MAX {
            return Err(BuildFault::Error(Code::Dynamic(DynamicCode::XTLM0001)));
        }
        let tree = made?;
        if !is_within_limits(&tree) {
            return Err(BuildFault::Error(Code::Dynamic(DynamicCode::XTLM0002)));
        }
        let node = Node::root_of(alloc, self.next, tree)?;
        self.next += 1;
        Ok(node)
    }
}

fn is_within_limits(tree: &Tree) -> bool
    ensures { result ≡ is_within_limits tree.now }
{
    tree.height() <= 2000 && tree.size() <= 0x7FFF_FFFF_FFFF_FFFF
}

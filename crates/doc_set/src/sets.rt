ghost use Rattle.std.specs.Prelude.{◌≡◌, [], IfOk, OnOk, OnErr, ℕ, List, IsTrue, Some, is_some, length};
ghost use Rattle.std.specs.Str.{bytes_eq, chars};
ghost use Rattle.std.specs.List.{IsDistinct};
ghost use Rattle.indexmap.specs.IndexMap.{get, insert_entry};
ghost use Rattle.doc_set.specs.Sets.{are_sound_documents, is_named, is_sound_document, names_of, next_number, root_named, with_document, DocumentSet};
ghost use Rattle.xt_tree.specs.Place.{Place};
ghost use Rattle.xt_tree.specs.declared.trees.Tree.{Tree as PlainTree};

use indexmap::IndexMap;
use std::alloc::{AllocError, Global};
use std::marker::Model;
use xt_names::Text;
use xt_tree::{Node, Tree};

/// Documents in order, each under a name of its own; contracts see the list of the names with their
/// trees.
#[derive(Drop)]
pub struct DocSet {
    documents: IndexMap<Text, Tree>,
}

impl Model for DocSet {
    ghost use Rattle.doc_set.specs.Sets.{DocumentSet};
    ghost use Rattle.std.specs.Coded.{codes};
    ghost use Rattle.xt_tree.specs.Forest.{forest_code};

    ghost Value = { DocumentSet };

    ghost coded = { Prim.hlevel (codes, forest_code) };

    ghost view = { λ s. s.documents.entries };
}

impl DocSet {
    /// No documents.
    pub fn new(alloc: Global) -> DocSet
        ensures { result ≡ [] }
    {
        DocSet {
            documents: IndexMap::new(alloc),
        }
    }

    /// How many documents there are. No two have the same name.
    pub fn len(&self) -> u64
        ensures count { result ≡ length self.now }
        ensures names { IsDistinct bytes_eq (names_of self.now) }
    {
        self.documents.len() as u64
    }

    /// Puts a document at the end, and answers its number, from 1; None exactly where the name is
    /// there, and the set stays as it was then.
    pub fn add(&mut self, name: &str, tree: Tree) -> Result<Option<u64>, AllocError>
        ensures number { IfOk result (λ number. number ≡ next_number (chars name.now) self.old) }
        ensures added { OnOk result (self.new ≡ with_document (chars name.now) tree self.old) }
        ensures err { OnErr result (self.new ≡ self.old) }
    {
        let name = Text::make(*self.documents.allocator(), name)?;
        if is_named(&self.documents, &name) {
            return Ok(None);
        }
        let number = self.documents.len() as u64 + 1;
        put(&mut self.documents, name, tree)?;
        Ok(Some(number))
    }

    /// The root of the document of that name, with its number; None exactly where the name is not
    /// there.
    pub fn find(&self, name: &str) -> Result<Option<Node>, AllocError>
        ensures { IfOk result (λ node. node ≡ root_named (chars name.now) self.now) }
    {
        let alloc = *self.documents.allocator();
        let name = Text::make(alloc, name)?;
        match self.documents.get_full(&name) {
            Some((place, _, tree)) => {
                prove!(place < self.documents.len());
                let tree = tree.copy()?;
                Ok(Some(Node::root_of(alloc, place as u64 + 1, tree)?))
            }
            None => Ok(None),
        }
    }

    /// The same documents under the same names, whose trees are shared.
    pub fn copy(&self) -> Result<DocSet, AllocError>
        ensures { IfOk result (λ copy. copy ≡ self.now) }
    {
        let mut documents = IndexMap::new(*self.documents.allocator());
        for place in 0..self.documents.len() {
            if let Some((name, tree)) = self.documents.get_index(place) {
                put_copy(&mut documents, name, tree)?;
            }
        }
        Ok(DocSet { documents })
    }
}

/// A set of sound documents stays one when a sound document is added, and what is found in it is
/// sound.
pub fn documents_stay_sound()
    ensures added { (name : List ℕ) (tree : PlainTree) (set : DocumentSet) →
        IsTrue (are_sound_documents set) → IsTrue (is_sound_document tree) →
        IsTrue (are_sound_documents (with_document name tree set)) }
    ensures found { (name : List ℕ) (set : DocumentSet) (root : Place) →
        IsTrue (are_sound_documents set) → root_named name set ≡ Some root → IsTrue (is_sound_document root.tree) }
{}

fn is_named(documents: &IndexMap<Text, Tree>, name: &Text) -> bool
    ensures named { result ≡ is_named name.now documents.now.entries }
    ensures found { result ≡ is_some (get bytes_eq documents.now name.now) }
{
    documents.get_index_of(name).is_some()
}

/// Puts the tree under the name; where memory runs out, all stays as it was.
fn put(documents: &mut IndexMap<Text, Tree>, name: Text, tree: Tree) -> Result<(), AllocError>
    ensures put { OnOk result (documents.new.entries
        ≡ insert_entry bytes_eq documents.old.entries name tree) }
    ensures err { OnErr result (documents.new.entries ≡ documents.old.entries) }
{
    documents.insert(name, tree)?;
    Ok(())
}

fn put_copy(
    documents: &mut IndexMap<Text, Tree>,
    name: &Text,
    tree: &Tree,
) -> Result<(), AllocError>
    ensures { OnOk result (documents.new.entries
        ≡ insert_entry bytes_eq documents.old.entries name.now tree.now) }
{
    put(documents, name.copy()?, tree.copy()?)
}

ghost use Rattle.std.specs.Prelude.{◌≡◌, ◌++◌, IfOk, OnOk};
ghost use Rattle.xt_tree.specs.TreeView.{forest_of, trees};
ghost use Rattle.doc_set.specs.WhiteSpace.Stripped.{stripped_forest, stripped_inside, stripped};
ghost use Rattle.doc_set.specs.WhiteSpace.Flat.{is_flat, is_leaf, is_dropped, left_of};

use crate::white_space::rules::{drops_in, preserves};
use std::alloc::{AllocError, Global};
use xt_names::{List, Name};
use xt_tree::{Attrs, Kids, Tree, is_white};
use xt_types::SpaceRule;

/// The tree without those texts of white space alone whose parent is an element for whose name the first rule that passes says
/// strip, and for which the nearest enclosing xml:space of the value preserve or default, where there is one, says default
/// (XSLT 2.0, 4.4). Names, attributes, texts and what is seen to stay whole are shared; where there are no rules the whole tree is.
pub fn strip(alloc: Global, tree: &Tree, rules: &List<SpaceRule>) -> Result<Tree, AllocError>
    ensures { IfOk result (λ made. made ≡ stripped rules.now tree.now) }
{
    match rules.as_slice() {
        [] => tree.copy(),
        rules => Stripper { alloc, rules }.strip_inside(tree, false),
    }
}

#[derive(Drop)]
struct Stripper<'a> {
    alloc: Global,
    rules: &'a [SpaceRule],
}

impl<'a> Stripper<'a> {
    /// The tree, inside of which texts go.
    #[cycle(strip)]
    fn strip_inside(&self, tree: &Tree, kept: bool) -> Result<Tree, AllocError>
        ensures { IfOk result (λ made. made ≡ stripped_inside self.now.rules.now kept tree.now) }
    {
        match tree {
            Tree::Doc(kids) => Ok(Tree::Doc(self.strip_kids(kids, kept, false)?)),
            Tree::Elem(name, attrs, kids) => self.strip_element(name, attrs, kids, kept),
            _ => tree.copy(),
        }
    }

    #[cycle(strip)]
    fn strip_element(
        &self,
        name: &Name,
        attrs: &Attrs,
        kids: &Kids,
        kept: bool,
    ) -> Result<Tree, AllocError>
        ensures { IfOk result (λ made. made ≡ stripped_inside self.now.rules.now kept (Tree.Elem name.now attrs.now kids.now)) }
    {
        let kept = preserves(kept, attrs.as_slice());
        let drops = drops_in(self.rules, kept, name);
        let kids = self.strip_kids(kids, kept, drops)?;
        Ok(Tree::Elem(name.copy()?, attrs.copy()?, kids))
    }

    /// The children that stay; the list itself where it is seen that all do.
    #[cycle(strip)]
    fn strip_kids(&self, kids: &Kids, kept: bool, drops: bool) -> Result<Kids, AllocError>
        ensures { IfOk result (λ made. made ≡ stripped_forest self.now.rules.now kept drops kids.now) }
    {
        if is_flat(kids.as_slice(), drops) {
            return kids.copy();
        }
        let mut out = List::new(self.alloc);
        self.push_kids(kids.as_slice(), kept, drops, &mut out)?;
        Kids::make(self.alloc, out)
    }

    #[cycle(strip)]
    fn push_kids(
        &self,
        kids: &[Tree],
        kept: bool,
        drops: bool,
        out: &mut List<Tree>,
    ) -> Result<(), AllocError>
        ensures { OnOk result (out.new ≡ out.old ++ trees (stripped_forest self.now.rules.now kept drops (forest_of kids.now))) }
    {
        for tree in kids {
            self.push_kid(tree, kept, drops, out)?;
        }
        Ok(())
    }

    #[cycle(strip)]
    fn push_kid(
        &self,
        tree: &Tree,
        kept: bool,
        drops: bool,
        out: &mut List<Tree>,
    ) -> Result<(), AllocError>
        ensures { OnOk result (out.new ≡ out.old ++ left_of self.now.rules.now kept drops tree.now) }
    {
        if is_dropped(tree, drops) {
            return Ok(());
        }
        out.push(self.strip_inside(tree, kept)?)
    }
}

/// Whether the tree is a text of white space alone where such texts go.
fn is_dropped(tree: &Tree, drops: bool) -> bool
    ensures { result ≡ is_dropped drops tree.now }
{
    match tree {
        Tree::Text(text) => drops && is_white(text),
        _ => false,
    }
}

/// Whether there are no trees inside of these, and none of them goes.
fn is_flat(kids: &[Tree], drops: bool) -> bool
    ensures { result ≡ is_flat drops kids.now }
{
    kids.iter()
        .all(|tree| is_leaf(tree) && !is_dropped(tree, drops))
}

fn is_leaf(tree: &Tree) -> bool
    ensures { result ≡ is_leaf tree.now }
{
    !matches!(tree, Tree::Doc(_) | Tree::Elem(_, _, _))
}

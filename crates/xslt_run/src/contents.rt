// The content of an element or a document while it is made.
ghost use Rattle.std.specs.Prelude.{◌≡◌, ◌++◌, OnOk, IfOk};
ghost use Rattle.xt_tree.specs.TreeView.{forest_of};
ghost use Rattle.xslt_run.specs.Content.{built, empty, pending_text, flushed, all_of, with_text, with_tree};

use std::alloc::{AllocError, Global};
use std::mem;
use xt_names::{List, Text, TextBuilder};
use xt_tree::{Kids, Tree};

/// Items in order, of which neighbouring texts are one text and empty texts none. A text that has no neighbour is shared.
#[derive(Drop)]
pub struct Content {
    pub done: List<Tree>,
    pub pending: Pending,
}

/// The text at the end, to which more may come.
#[derive(Drop)]
pub enum Pending {
    Nothing,
    Shared(Text),
    Joined(TextBuilder),
}

impl Content {
    /// No items yet.
    pub fn new(alloc: Global) -> Content
        ensures { built result ≡ empty }
    {
        Content {
            done: List::new(alloc),
            pending: Pending::Nothing,
        }
    }

    /// Puts a text at the end.
    #[inline(never)]
    pub fn push_text(&mut self, alloc: Global, text: &Text) -> Result<(), AllocError>
        ensures { OnOk result (built self.new ≡ with_text (built self.old) text.now) }
    {
        let pending = mem::replace(&mut self.pending, Pending::Nothing);
        self.pending = join(alloc, pending, text)?;
        Ok(())
    }

    /// Puts a tree that is no text at the end.
    pub fn push_tree(&mut self, tree: Tree) -> Result<(), AllocError>
        ensures { OnOk result (built self.new ≡ with_tree (built self.old) tree) }
    {
        let pending = mem::replace(&mut self.pending, Pending::Nothing);
        push_pending(&mut self.done, pending)?;
        self.done.push(tree)
    }

    /// The whole content.
    pub fn finish(self, alloc: Global) -> Result<Kids, AllocError>
        ensures { IfOk result (λ kids. kids ≡ forest_of (all_of (built self))) }
    {
        let Content { mut done, pending } = self;
        push_pending(&mut done, pending)?;
        Kids::make(alloc, done)
    }
}

fn join(alloc: Global, pending: Pending, text: &Text) -> Result<Pending, AllocError>
    ensures { IfOk result (λ joined. pending_text joined ≡ pending_text pending ++ text.now) }
{
    match pending {
        Pending::Nothing => Ok(Pending::Shared(text.copy()?)),
        Pending::Shared(first) => {
            let mut builder = TextBuilder::new(alloc);
            builder.push_text(&first)?;
            builder.push_text(text)?;
            Ok(Pending::Joined(builder))
        }
        Pending::Joined(builder) => {
            let mut builder = builder;
            builder.push_text(text)?;
            Ok(Pending::Joined(builder))
        }
    }
}

fn push_pending(done: &mut List<Tree>, pending: Pending) -> Result<(), AllocError>
    ensures { OnOk result (done.new ≡ done.old ++ flushed (pending_text pending)) }
{
    match pending {
        Pending::Nothing => Ok(()),
        Pending::Shared(text) => push_node(done, text),
        Pending::Joined(builder) => {
            let text = builder.finish()?;
            push_node(done, text)
        }
    }
}

fn push_node(done: &mut List<Tree>, text: Text) -> Result<(), AllocError>
    ensures { OnOk result (done.new ≡ done.old ++ flushed text) }
{
    if text.is_empty() {
        return Ok(());
    }
    done.push(Tree::Text(text))
}

// The text at the end of the content, to which more may come.
ghost use Rattle.std.specs.Prelude.{◌≡◌, ◌++◌, ◌∷◌, [], OnOk, IfOk};
ghost use Rattle.node_builder.specs.Building.{pending_text, flushed};

use std::alloc::{AllocError, Global};
use xt_names::{List, Text, TextBuilder};
use xt_tree::Tree;

/// The text at the end, to which more may come. A text that has no neighbour is shared.
#[derive(Drop)]
pub(crate) enum Pending {
    Nothing,
    Shared(Text),
    Joined(TextBuilder),
}

/// Puts a text after the pending one.
pub(crate) fn join(alloc: Global, pending: Pending, text: &Text) -> Result<Pending, AllocError>
    ensures { IfOk result (λ joined. pending_text joined ≡ pending_text pending ++ text.now) }
{
    if let Pending::Nothing = pending {
        return Ok(Pending::Shared(text.copy()?));
    }
    let mut builder = into_builder(alloc, pending)?;
    builder.push_text(text)?;
    Ok(Pending::Joined(builder))
}

/// Puts a space after the pending text.
pub(crate) fn join_space(alloc: Global, pending: Pending) -> Result<Pending, AllocError>
    ensures { IfOk result (λ joined. pending_text joined ≡ pending_text pending ++ 32 ∷ []) }
{
    let mut builder = into_builder(alloc, pending)?;
    builder.push(' ')?;
    Ok(Pending::Joined(builder))
}

fn into_builder(alloc: Global, pending: Pending) -> Result<TextBuilder, AllocError>
    ensures { IfOk result (λ builder. builder ≡ pending_text pending) }
{
    match pending {
        Pending::Nothing => Ok(TextBuilder::new(alloc)),
        Pending::Shared(first) => {
            let mut builder = TextBuilder::new(alloc);
            builder.push_text(&first)?;
            Ok(builder)
        }
        Pending::Joined(builder) => Ok(builder),
    }
}

/// Puts the pending text at the end of the trees, unless it is empty.
pub(crate) fn push_pending(done: &mut List<Tree>, pending: Pending) -> Result<(), AllocError>
    ensures { OnOk result (done.new ≡ done.old ++ flushed (pending_text pending)) }
{
    match pending {
        Pending::Nothing => Ok(()),
        Pending::Shared(text) => push_node(done, text),
        Pending::Joined(builder) => {
            let text = builder.finish()?;
            push_node(done, text)
        }
    }
}

fn push_node(done: &mut List<Tree>, text: Text) -> Result<(), AllocError>
    ensures { OnOk result (done.new ≡ done.old ++ flushed text) }
{
    if text.is_empty() {
        return Ok(());
    }
    done.push(Tree::Text(text))
}

// Texts that stand beside each other.
ghost use Rattle.std.specs.Prelude.{◌≡◌, ◌++◌, [], IfOk, OnOk};
ghost use Rattle.sheet_table.specs.SheetNodes.Cleaned.{flushed, goes};
ghost use Rattle.sheet_table.specs.SheetNodes.Pending.{pending_text};

use crate::sheet_nodes::nodes::Node;
use std::alloc::{AllocError, Global};
use xt_names::{List, Text, TextBuilder};
use xt_tree::is_white;

/// The texts since the last element. One alone is shared, and not copied.
#[derive(Drop)]
pub(crate) enum Pending {
    Nothing,
    One(Text),
    Several(TextBuilder),
}

impl Pending {
    /// The texts, and this one after them.
    pub(crate) fn with(self, alloc: Global, text: &Text) -> Result<Pending, AllocError>
        ensures { IfOk result (λ all. pending_text all ≡ pending_text self ++ text.now) }
    {
        match self {
            Pending::Nothing => Ok(Pending::One(text.copy()?)),
            Pending::One(before) => {
                let mut all = TextBuilder::new(alloc);
                all.push_text(&before)?;
                all.push_text(text)?;
                Ok(Pending::Several(all))
            }
            Pending::Several(before) => {
                let mut all = before;
                all.push_text(text)?;
                Ok(Pending::Several(all))
            }
        }
    }

    /// Puts the texts at the end as one, if that stays.
    pub(crate) fn flush(self, keep: bool, out: &mut List<Node>) -> Result<(), AllocError>
        ensures { OnOk result (out.new ≡ out.old ++ flushed keep (pending_text self)) }
    {
        match self {
            Pending::Nothing => no_text(keep, out),
            Pending::One(text) => put(keep, text, out),
            Pending::Several(all) => put(keep, all.finish()?, out),
        }
    }
}

/// No text does not stay.
fn no_text(keep: bool, out: &mut List<Node>) -> Result<(), AllocError>
    ensures { OnOk result (out.new ≡ out.old ++ flushed keep []) }
{
    Ok(())
}

/// Puts the text at the end, if it stays.
#[tactic(auto, unfolding(crate::specs::SheetNodes::Cleaned::flushed))]
fn put(keep: bool, text: Text, out: &mut List<Node>) -> Result<(), AllocError>
    ensures { OnOk result (out.new ≡ out.old ++ flushed keep text) }
{
    if goes(keep, &text) {
        return Ok(());
    }
    out.push(Node::Chars(text))
}

fn goes(keep: bool, text: &Text) -> bool
    ensures { result ≡ goes keep text.now }
{
    if keep {
        text.is_empty()
    } else {
        is_white(text)
    }
}

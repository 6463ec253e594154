// One item after another.
ghost use Rattle.std.specs.Prelude.{◌≡◌, ◌<◌, IfOk};
ghost use Rattle.eval_scopes.specs.NodeWalks.Moves.{given};
ghost use Rattle.eval_lates.specs.Late.{IsNext};

use eval_scopes::lazy_seq::Seq;
use node_axes::Steps;
use std::alloc::AllocError;
use std::marker::Brand;
use std::sync::ledger::{Blank, Ledger};
use xdm_items::Item;

fn next_counted<L: Ledger>(blank: Blank, items: &mut Seq) -> Result<Option<Item>, AllocError>
    requires name { blank.name ≡ L.name }
    requires parts { blank.parts ≡ L.parts }
    requires one { 0 < blank.parts }
    ensures { IfOk result (λ item. IsNext item (given items.old.moves) (given items.new.moves)) }
{
    let mut steps = Steps::<L>::begin(blank);
    let item = items.next(&mut steps)?;
    Ok(item)
}

/// Takes the first item out; None exactly where there is none. None after it is looked for.
#[inline(never)]
pub fn late_next(items: &mut Seq) -> Result<Option<Item>, AllocError>
    ensures { IfOk result (λ item. IsNext item (given items.old.moves) (given items.new.moves)) }
{
    next_counted::<Brand>(Blank::new(1), items)
}

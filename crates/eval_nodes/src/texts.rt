// The text of a value.
ghost use Rattle.std.specs.Prelude.{◌≡◌, IfOk};
ghost use Rattle.expr_meaning.specs.Making.{spaced_text};

use node_builder::simple;
use std::alloc::{AllocError, Global};
use xdm_items::{ItemList, atomize};
use xt_names::Text;

/// The texts of the items made atoms, with a space between them (XQuery 1.0, 3.7.3.2).
#[inline(never)]
pub fn spaced_text(alloc: Global, items: &ItemList) -> Result<Text, AllocError>
    ensures { IfOk result (λ text. text ≡ spaced_text items.now) }
{
    let atoms = atomize(alloc, items)?;
    simple(alloc, &atoms, " ")
}

// Commas between items.
ghost use Rattle.std.specs.Prelude.{◌≡◌, ◌∷◌, ◌<◌, ◌≤◌, ◌+◌, OnOk};
ghost use Rattle.expr_keys.specs.declared.keys.Key.TheVariants as key_of;
ghost use Rattle.expr_keys.specs.declared.tokens.Token.TheVariants as token_of;

use crate::drafts::Draft;
use expr_terms::Key;
use query_pages::Gap;
use std::alloc::AllocError;

/// A comma after the item at the place, where more of so many follow.
pub fn push_comma(draft: &mut Draft<'_>, place: usize, count: usize) -> Result<(), AllocError>
    ensures between { place + 1 < count
        → OnOk result (draft.new ≡ token_of.Key key_of.Comma ∷ draft.old) }
    ensures last { count ≤ place + 1 → OnOk result (draft.new ≡ draft.old) }
{
    if place < count && count - place > 1 {
        return draft.push_key(Gap::Space, Key::Comma);
    }
    Ok(())
}

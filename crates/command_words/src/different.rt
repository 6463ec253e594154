// Texts that stand twice.
ghost use Rattle.std.specs.Prelude.{◌≡◌, ℕ, List, not, true, if◌then◌else◌, IfOk, OnOk};
ghost use Rattle.std.specs.HashSet.{contains};
ghost use Rattle.std.specs.Str.{bytes_eq};
ghost use Rattle.command_words.specs.Texts.{are_different};

use std::alloc::{AllocError, Global};
use std::collections::HashSet;
use xt_names::Text;

/// Whether no two of the texts are the same.
pub(crate) fn are_different(alloc: Global, texts: &[Text]) -> Result<bool, AllocError>
    ensures { IfOk result (λ different. different ≡ are_different texts.now) }
{
    let mut seen = HashSet::with_capacity(alloc, texts.len())?;
    for text in texts {
        if !put_text(&mut seen, text)? {
            return Ok(false);
        }
    }
    Ok(true)
}

// Puts the text into the table, and tells whether it is new there.
fn put_text(seen: &mut HashSet<Text>, text: &Text) -> Result<bool, AllocError>
    ensures added { IfOk result (λ added. added ≡ not (contains bytes_eq seen.old text.now)) }
    ensures texts { OnOk result ((key : List ℕ) → contains bytes_eq seen.new key
        ≡ (if bytes_eq text.now key then true else contains bytes_eq seen.old key)) }
{
    let added = seen.insert(text.copy()?)?;
    Ok(added)
}

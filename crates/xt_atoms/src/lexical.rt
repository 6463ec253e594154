// The values that texts spell.
ghost use Rattle.std.specs.Prelude.{◌≡◌};
ghost use Rattle.std.specs.Str.{chars};
ghost use Rattle.xt_atoms.specs.Lexical.{integer_of, boolean_of, spelled_boolean};

use crate::trims::trimmed;
use xt_names::is_ascii_text;

/// The integer that the text spells: an optional sign and decimal digits, with white space around them, in the range of
/// 64 bits (XML Schema 2, 3.3.13).
pub fn integer_of(text: &str) -> Option<i64>
    ensures { result ≡ integer_of (chars text.now) }
{
    let word = trimmed(text);
    word.parse().ok()
}

/// The truth value that the text spells: `true`, `1`, `false` or `0`, with white space around it (XML Schema 2, 3.2.2).
#[tactic(auto, unfolding(crate::specs::Lexical::boolean_of))]
pub fn boolean_of(text: &str) -> Option<bool>
    ensures { result ≡ boolean_of (chars text.now) }
{
    spelled_boolean(trimmed(text))
}

#[tactic(auto, unfolding(crate::specs::Lexical::spelled_boolean))]
fn spelled_boolean(word: &str) -> Option<bool>
    ensures { result ≡ spelled_boolean (chars word.now) }
{
    if is_ascii_text(word, "true") || is_ascii_text(word, "1") {
        return Some(true);
    }
    if is_ascii_text(word, "false") || is_ascii_text(word, "0") {
        return Some(false);
    }
    None
}

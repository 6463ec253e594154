// Texts of the table.
ghost use Rattle.std.specs.Prelude.{◌≡◌, IsTrue, map};
ghost use Rattle.std.specs.Str.{chars};
ghost use Rattle.sheet_table.specs.Texts.{are_ascii, is_one_of};

use xt_names::is_ascii_text;

/// Whether the text is one of the names.
pub(crate) fn is_one_of(text: &str, names: &[&str]) -> bool
    requires { IsTrue (are_ascii (map (λ n. n.now) names.now)) }
    ensures { result ≡ is_one_of (chars text.now) (map (λ n. n.now) names.now) }
{
    for name in names {
        if is_ascii_text(text, name) {
            return true;
        }
    }
    false
}

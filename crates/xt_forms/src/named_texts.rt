// Texts of a list.
ghost use Rattle.std.specs.Prelude.{◌≡◌, IsTrue, nat_lt};
ghost use Rattle.std.specs.List.{list_all, list_any};
ghost use Rattle.std.specs.Str.{bytes_eq};

use xt_names::{Text, is_ascii_text};

/// Whether the text is one of these texts of ASCII characters.
pub(crate) fn is_one_of(local: &Text, names: &[&str]) -> bool
    requires { IsTrue (list_all (λ name. list_all (λ b. nat_lt b 128) name.now) names.now) }
    ensures { result ≡ list_any (λ name. bytes_eq local.now name.now) names.now }
{
    for name in names {
        if is_ascii_text(local.as_str(), name) {
            return true;
        }
    }
    false
}

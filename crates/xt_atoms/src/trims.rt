// Texts without the white space at their ends.
ghost use Rattle.std.specs.Prelude.{◌≡◌};
ghost use Rattle.std.specs.Char.{IsScalar};
ghost use Rattle.std.specs.Str.{chars};
ghost use Rattle.xt_names.specs.Marks.{is_white};
ghost use Rattle.xt_atoms.specs.Lexical.{trimmed, without_leading_white, without_trailing_white};

/// The text without the white space at its ends (XML Schema 2, 4.3.6).
#[tactic(auto, unfolding(crate::specs::Lexical::trimmed))]
pub fn trimmed(text: &str) -> &str
    ensures { chars result.now ≡ trimmed (chars text.now) }
{
    without_trailing_white(without_leading_white(text))
}

fn is_white(c: char) -> bool
    ensures value { result ≡ is_white c }
    ensures scalar { IsScalar c }
{
    matches!(c, ' ' | '\t' | '\n' | '\r')
}

fn without_leading_white(text: &str) -> &str
    ensures { chars result.now ≡ without_leading_white (chars text.now) }
{
    let mut left = text.chars();
    let mut rest = left.as_str();
    while let Some(c) = left.next() {
        if !is_white(c) {
            return rest;
        }
        rest = left.as_str();
    }
    rest
}

fn without_trailing_white(text: &str) -> &str
    ensures { chars result.now ≡ without_trailing_white (chars text.now) }
{
    let mut left = text.chars();
    let mut rest = left.as_str();
    while let Some(c) = left.next_back() {
        let before = left.as_str();
        if !is_white(c) {
            return rest;
        }
        rest = before;
    }
    rest
}

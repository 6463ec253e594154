// Texts within texts.
ghost use Rattle.std.specs.Prelude.{◌≡◌, Some, None, MatchOption, nat_eq};
ghost use Rattle.std.specs.List.{starts_with, ends_with};
ghost use Rattle.std.specs.Str.{chars};
ghost use Rattle.text_operations.specs.Searches.{text_before, text_after};

/// The parts before and after the first occurrence of the part; None where it does not occur. The empty text occurs at the
/// start (Functions and Operators, 7.5.4 and 7.5.5).
pub fn split_at_first<'a>(text: &'a str, part: &str) -> Option<(&'a str, &'a str)>
    ensures { MatchOption result (text_before (chars part.now) (chars text.now) ≡ None)
        (λ parts. (text_before (chars part.now) (chars text.now) ≡ Some (chars parts.0.now))
        × (text_after (chars part.now) (chars text.now) ≡ Some (chars parts.1.now))) }
{
    text.split_once(part)
}

/// Whether the text begins with the part (Functions and Operators, 7.5.2).
pub fn starts_with(text: &str, part: &str) -> bool
    ensures { result ≡ starts_with nat_eq (chars text.now) (chars part.now) }
{
    text.starts_with(part)
}

/// Whether the text ends with the part (Functions and Operators, 7.5.3).
pub fn ends_with(text: &str, part: &str) -> bool
    ensures { result ≡ ends_with nat_eq (chars text.now) (chars part.now) }
{
    text.ends_with(part)
}

// Whether characters of direct elements can be written.
ghost use Rattle.std.specs.Prelude.{◌≡◌};
ghost use Rattle.std.specs.List.{list_all};
ghost use Rattle.std.specs.Str.{chars};
ghost use Rattle.expr_raws.specs.ElementRaws.Runs.{is_markup, is_itself, is_doubled, has_way, can_run};
ghost use Rattle.xt_names.specs.Characters.{is_referred};

use xt_names::{Text, is_xml_char};

fn is_markup(value: bool, c: char) -> bool
    ensures { result ≡ is_markup value c }
{
    if value {
        matches!(c, '"' | '<' | '&' | '{' | '}' | '\t' | '\n' | '\r')
    } else {
        matches!(c, '<' | '&' | '{' | '}' | '\r')
    }
}

fn is_doubled(value: bool, c: char) -> bool
    ensures { result ≡ is_doubled value c }
{
    if value {
        matches!(c, '"' | '{' | '}')
    } else {
        matches!(c, '{' | '}')
    }
}

fn is_referred(c: char) -> bool
    ensures { result ≡ is_referred c }
{
    matches!(c, '&' | '<' | '>' | '"' | '\'' | '\t' | '\n' | '\r' | ' ')
}

/// Whether the character stands for itself, in a value or in content.
#[tactic(auto, unfolding(xt_names::specs::Characters::is_char))]
fn is_itself(value: bool, c: char) -> bool
    ensures { result ≡ is_itself value c }
{
    is_xml_char(c) && !is_markup(value, c)
}

/// Whether the character can be written.
fn has_way(value: bool, c: char) -> bool
    ensures { result ≡ has_way value c }
{
    is_itself(value, c) || (is_doubled(value, c) || is_referred(c))
}

fn have_ways(value: bool, s: &str) -> bool
    ensures { result ≡ list_all (has_way value) (chars s.now) }
{
    s.chars().all(|c| has_way(value, c))
}

/// Some characters that can be written.
pub(crate) fn can_run(value: bool, text: &Text) -> bool
    ensures { result ≡ can_run value text.now }
{
    if text.is_empty() {
        return false;
    }
    have_ways(value, text.as_str())
}

// The classes of characters that a run is read by.
ghost use Rattle.std.specs.Prelude.{◌≡◌};
ghost use Rattle.xt_names.specs.Characters.{is_space, is_char, starts_name, is_name_char, is_quote};
ghost use Rattle.xpath_lex.specs.Classes.{is_digit, is_single, is_double};

use text_scan::Class;
use xt_names::{is_ncname_char, is_ncname_start, is_xml_char};

/// White space.
pub(crate) struct Space;

/// A decimal digit.
pub(crate) struct Digit;

/// What may come after the first character of a name without a colon.
pub(crate) struct NameChar;

/// What may be in a comment and begins neither another one nor its end.
pub(crate) struct Plain;

/// What may be between double quotes, but for a quote.
pub(crate) struct DoubleQuoted;

/// What may be between single quotes, but for a quote.
pub(crate) struct SingleQuoted;

impl Class for Space {
    ghost use Rattle.xt_names.specs.Characters.{is_space};

    ghost class = { is_space };

    fn has(c: char) -> bool {
        is_space(c)
    }
}

impl Class for Digit {
    ghost use Rattle.xpath_lex.specs.Classes.{is_digit};

    ghost class = { is_digit };

    fn has(c: char) -> bool {
        is_digit(c)
    }
}

impl Class for NameChar {
    ghost use Rattle.xt_names.specs.Characters.{is_name_char};

    ghost class = { is_name_char };

    fn has(c: char) -> bool {
        is_name_char(c)
    }
}

impl Class for Plain {
    ghost use Rattle.xpath_lex.specs.Runs.{is_plain};

    ghost class = { is_plain };

    #[tactic(auto, unfolding(crate::specs::Runs::is_plain))]
    fn has(c: char) -> bool {
        is_char(c) && c != '(' && c != ':'
    }
}

impl Class for DoubleQuoted {
    ghost use Rattle.xpath_lex.specs.Runs.{is_inside};

    ghost class = { is_inside 34 };

    #[tactic(auto, unfolding(crate::specs::Runs::is_inside))]
    fn has(c: char) -> bool {
        is_char(c) && c != '"'
    }
}

impl Class for SingleQuoted {
    ghost use Rattle.xpath_lex.specs.Runs.{is_inside};

    ghost class = { is_inside 39 };

    #[tactic(auto, unfolding(crate::specs::Runs::is_inside))]
    fn has(c: char) -> bool {
        is_char(c) && c != '\''
    }
}

#[tactic(auto, unfolding(xt_names::specs::Characters::is_space))]
pub(crate) fn is_space(c: char) -> bool
    ensures { result ≡ is_space c }
{
    matches!(c, ' ' | '\t' | '\n' | '\r')
}

#[tactic(auto, unfolding(xt_names::specs::Characters::is_char))]
fn is_char(c: char) -> bool
    ensures { result ≡ is_char c }
{
    is_xml_char(c)
}

#[tactic(auto, unfolding(xt_names::specs::Characters::starts_name))]
pub(crate) fn starts_name(c: char) -> bool
    ensures { result ≡ starts_name c }
{
    is_ncname_start(c)
}

#[tactic(auto, unfolding(xt_names::specs::Characters::is_name_char))]
fn is_name_char(c: char) -> bool
    ensures { result ≡ is_name_char c }
{
    is_ncname_char(c)
}

#[tactic(auto, unfolding(crate::specs::Classes::is_digit))]
pub(crate) fn is_digit(c: char) -> bool
    ensures { result ≡ is_digit c }
{
    matches!(c, '0'..='9')
}

#[tactic(auto, unfolding(xt_names::specs::Characters::is_quote))]
pub(crate) fn is_quote(c: char) -> bool
    ensures { result ≡ is_quote c }
{
    c == '"' || c == '\''
}

/// Whether the character is a symbol.
#[tactic(auto, unfolding(crate::specs::Classes::is_single))]
pub(crate) fn is_single(c: char) -> bool
    ensures { result ≡ is_single c }
{
    matches!(
        c,
        '(' | ')'
            | '['
            | ']'
            | '{'
            | '}'
            | ','
            | '.'
            | '/'
            | '@'
            | '|'
            | '+'
            | '-'
            | '*'
            | '='
            | '<'
            | '>'
            | '$'
            | '?'
            | ';'
    )
}

/// Whether the two characters are a symbol.
#[tactic(auto, unfolding(crate::specs::Classes::is_double))]
pub(crate) fn is_double(c: char, d: char) -> bool
    ensures { result ≡ is_double c d }
{
    match c {
        '.' => d == '.',
        '/' => d == '/',
        ':' => d == ':' || d == '=',
        '!' => d == '=',
        '<' => d == '=' || d == '<',
        '>' => d == '=' || d == '>',
        _ => false,
    }
}

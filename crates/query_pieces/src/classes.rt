// The classes of characters that a run is read by.
ghost use Rattle.std.specs.Prelude.{◌≡◌};
ghost use Rattle.xpath_lex.specs.Classes.{is_digit};
ghost use Rattle.xt_names.specs.Characters.{is_space, is_char, starts_name, is_name_char};
ghost use Rattle.query_pieces.specs.References.{is_hexadecimal};
ghost use Rattle.query_pieces.specs.Literals.{is_said};
ghost use Rattle.query_pieces.specs.Elements.{is_content, is_value, mark_of};

use crate::contexts::Quote;
use text_scan::Class;
use xt_names::{is_ncname_char, is_ncname_start, is_xml_char};

/// White space.
pub(crate) struct Space;

/// What may be in a name without a colon.
pub(crate) struct NameChar;

/// A decimal digit.
pub(crate) struct Decimal;

/// A hexadecimal digit.
pub(crate) struct Hexadecimal;

/// What stands for itself in a literal.
pub(crate) struct Said;

/// What stands for itself in the content of an element.
pub(crate) struct Content;

/// What stands for itself in a value between single quotes.
pub(crate) struct InSingle;

/// What stands for itself in a value between double quotes.
pub(crate) struct InDouble;

impl Class for Space {
    ghost use Rattle.xt_names.specs.Characters.{is_space};

    ghost class = { is_space };

    fn has(c: char) -> bool {
        is_space(c)
    }
}

impl Class for NameChar {
    ghost use Rattle.xt_names.specs.Characters.{is_name_char};

    ghost class = { is_name_char };

    #[tactic(auto, unfolding(xt_names::specs::Characters::is_name_char))]
    fn has(c: char) -> bool {
        is_ncname_char(c)
    }
}

impl Class for Decimal {
    ghost use Rattle.xpath_lex.specs.Classes.{is_digit};

    ghost class = { is_digit };

    fn has(c: char) -> bool {
        is_digit(c)
    }
}

impl Class for Hexadecimal {
    ghost use Rattle.query_pieces.specs.References.{is_hexadecimal};

    ghost class = { is_hexadecimal };

    #[tactic(auto, unfolding(crate::specs::References::is_hexadecimal))]
    fn has(c: char) -> bool {
        is_digit(c) || matches!(c, 'a'..='f') || matches!(c, 'A'..='F')
    }
}

impl Class for Said {
    ghost use Rattle.query_pieces.specs.Literals.{is_said};

    ghost class = { is_said };

    #[tactic(auto, unfolding(crate::specs::Literals::is_said))]
    fn has(c: char) -> bool {
        c != '&' && c != '\r'
    }
}

impl Class for Content {
    ghost use Rattle.query_pieces.specs.Elements.{is_content};

    ghost class = { is_content };

    #[tactic(auto, unfolding(crate::specs::Elements::is_content))]
    fn has(c: char) -> bool {
        is_char(c) && !(c == '<' || c == '&' || c == '{' || c == '}' || c == '\r')
    }
}

impl Class for InSingle {
    ghost use Rattle.query_pieces.specs.Points.{single};
    ghost use Rattle.query_pieces.specs.Elements.{is_value};

    ghost class = { is_value single };

    fn has(c: char) -> bool {
        is_value(Quote::Single, c)
    }
}

impl Class for InDouble {
    ghost use Rattle.query_pieces.specs.Points.{double};
    ghost use Rattle.query_pieces.specs.Elements.{is_value};

    ghost class = { is_value double };

    fn has(c: char) -> bool {
        is_value(Quote::Double, c)
    }
}

impl Quote {
    /// The character.
    pub(crate) fn mark(self) -> char
        ensures { result ≡ mark_of self }
    {
        match self {
            Quote::Single => '\'',
            Quote::Double => '"',
        }
    }
}

#[tactic(auto, unfolding(xt_names::specs::Characters::is_space))]
pub(crate) fn is_space(c: char) -> bool
    ensures { result ≡ is_space c }
{
    matches!(c, ' ' | '\t' | '\n' | '\r')
}

#[tactic(auto, unfolding(xt_names::specs::Characters::is_char))]
pub(crate) fn is_char(c: char) -> bool
    ensures { result ≡ is_char c }
{
    is_xml_char(c)
}

#[tactic(auto, unfolding(xt_names::specs::Characters::starts_name))]
pub(crate) fn starts_name(c: char) -> bool
    ensures { result ≡ starts_name c }
{
    is_ncname_start(c)
}

#[tactic(auto, unfolding(xpath_lex::specs::Classes::is_digit))]
fn is_digit(c: char) -> bool
    ensures { result ≡ is_digit c }
{
    matches!(c, '0'..='9')
}

#[tactic(auto, unfolding(crate::specs::Elements::is_value))]
fn is_value(quote: Quote, c: char) -> bool
    ensures { result ≡ is_value quote c }
{
    is_char(c)
        && !(c == quote.mark()
            || c == '<'
            || c == '&'
            || c == '{'
            || c == '}'
            || c == '\t'
            || c == '\n'
            || c == '\r')
}

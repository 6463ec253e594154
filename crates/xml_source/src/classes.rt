// The classes of characters that a run is read by.
ghost use Rattle.std.specs.Prelude.{◌≡◌};

use text_scan::Class;
use xt_names::{is_ncname_char, is_ncname_start, is_xml_char};

/// White space.
pub(crate) struct Space;

/// What stands for itself in text, but for what may be a part of `]]>`.
pub struct PlainText;

/// The closing bracket.
pub struct Bracket;

/// What stands for itself in a value between double quotes.
pub struct DoubleQuoted;

/// What stands for itself in a value between single quotes.
pub struct SingleQuoted;

/// What may be in a comment, but for the dash.
pub(crate) struct NotDash;

/// What may be in a section, but for the closing bracket.
pub(crate) struct NotBracket;

/// What may be in an instruction, but for the question mark.
pub(crate) struct NotQuestion;

/// What may come after the first character of a name without a colon.
pub(crate) struct NameChar;

/// What may come after the first character of a name that may have colons.
pub(crate) struct ColonNameChar;

/// A decimal digit.
pub(crate) struct Digit;

/// What may be in a system identifier between double quotes.
pub(crate) struct NotDoubleQuote;

/// What may be in a system identifier between single quotes.
pub(crate) struct NotSingleQuote;

/// What may be in a public identifier between double quotes.
pub(crate) struct PublicInDouble;

/// What may be in a public identifier between single quotes.
pub(crate) struct PublicInSingle;

impl Class for Space {
    ghost use Rattle.xt_names.specs.Characters.{is_space};

    ghost class = { is_space };

    fn has(c: char) -> bool {
        is_space(c)
    }
}

impl Class for PlainText {
    ghost use Rattle.xml_source.specs.Classes.{is_plain_text};

    ghost class = { is_plain_text };

    #[tactic(auto, unfolding(crate::specs::Classes::is_plain_text))]
    fn has(c: char) -> bool {
        is_text(c) && c != ']' && c != '>'
    }
}

impl Class for Bracket {
    ghost use Rattle.xml_source.specs.Classes.{is_bracket};

    ghost class = { is_bracket };

    #[tactic(auto, unfolding(crate::specs::Classes::is_bracket))]
    fn has(c: char) -> bool {
        c == ']'
    }
}

impl Class for DoubleQuoted {
    ghost use Rattle.xml_source.specs.Classes.{is_plain_value};

    ghost class = { is_plain_value 34 };

    fn has(c: char) -> bool {
        is_plain_value('"', c)
    }
}

impl Class for SingleQuoted {
    ghost use Rattle.xml_source.specs.Classes.{is_plain_value};

    ghost class = { is_plain_value 39 };

    fn has(c: char) -> bool {
        is_plain_value('\'', c)
    }
}

impl Class for NotDash {
    ghost use Rattle.xml_source.specs.Classes.{is_char_but};

    ghost class = { is_char_but 45 };

    #[tactic(auto, unfolding(crate::specs::Classes::is_char_but, xt_names::specs::Characters::is_char))]
    fn has(c: char) -> bool {
        is_xml_char(c) && c != '-'
    }
}

impl Class for NotBracket {
    ghost use Rattle.xml_source.specs.Classes.{is_char_but};

    ghost class = { is_char_but 93 };

    #[tactic(auto, unfolding(crate::specs::Classes::is_char_but, xt_names::specs::Characters::is_char))]
    fn has(c: char) -> bool {
        is_xml_char(c) && c != ']'
    }
}

impl Class for NotQuestion {
    ghost use Rattle.xml_source.specs.Classes.{is_char_but};

    ghost class = { is_char_but 63 };

    #[tactic(auto, unfolding(crate::specs::Classes::is_char_but, xt_names::specs::Characters::is_char))]
    fn has(c: char) -> bool {
        is_xml_char(c) && c != '?'
    }
}

impl Class for NameChar {
    ghost use Rattle.xt_names.specs.Characters.{is_name_char};

    ghost class = { is_name_char };

    fn has(c: char) -> bool {
        is_name_char(c)
    }
}

impl Class for ColonNameChar {
    ghost use Rattle.doc_grammar.specs.Prolog.{is_colon_name_char};

    ghost class = { is_colon_name_char };

    fn has(c: char) -> bool {
        is_name_char(c) || c == ':'
    }
}

impl Class for Digit {
    ghost use Rattle.doc_grammar.specs.Characters.{is_between};

    ghost class = { is_between 48 57 };

    fn has(c: char) -> bool {
        matches!(c, '0'..='9')
    }
}

impl Class for NotDoubleQuote {
    ghost use Rattle.doc_grammar.specs.Prolog.{is_in_system};

    ghost class = { is_in_system 34 };

    fn has(c: char) -> bool {
        is_char(c) && c != '"'
    }
}

impl Class for NotSingleQuote {
    ghost use Rattle.doc_grammar.specs.Prolog.{is_in_system};

    ghost class = { is_in_system 39 };

    fn has(c: char) -> bool {
        is_char(c) && c != '\''
    }
}

impl Class for PublicInDouble {
    ghost use Rattle.doc_grammar.specs.Prolog.{is_in_public};

    ghost class = { is_in_public 34 };

    fn has(c: char) -> bool {
        is_public_char(c) || c == '\''
    }
}

impl Class for PublicInSingle {
    ghost use Rattle.doc_grammar.specs.Prolog.{is_in_public};

    ghost class = { is_in_public 39 };

    fn has(c: char) -> bool {
        is_public_char(c)
    }
}

ghost use Rattle.doc_grammar.specs.Prolog.{is_public_char, starts_colon_name};
ghost use Rattle.doc_grammar.specs.Characters.{is_text};
ghost use Rattle.xt_names.specs.Characters.{is_space, is_char, is_name_char, starts_name};
ghost use Rattle.xml_source.specs.Classes.{is_plain_value};

/// Whether the character is white space.
#[tactic(auto, unfolding(xt_names::specs::Characters::is_space))]
pub fn is_space(c: char) -> bool
    ensures { result ≡ is_space c }
{
    matches!(c, ' ' | '\t' | '\n' | '\r')
}

#[tactic(auto, unfolding(xt_names::specs::Characters::is_char))]
pub(crate) fn is_char(c: char) -> bool
    ensures { result ≡ is_char c }
{
    is_xml_char(c)
}

#[tactic(auto, unfolding(doc_grammar::specs::Characters::is_text))]
pub(crate) fn is_text(c: char) -> bool
    ensures { result ≡ is_text c }
{
    is_char(c) && c != '<' && c != '&'
}

#[tactic(auto, unfolding(crate::specs::Classes::is_plain_value, doc_grammar::specs::Characters::is_value))]
fn is_plain_value(quote: char, c: char) -> bool
    ensures { result ≡ is_plain_value quote c }
{
    is_text(c) && c != quote && !(is_space(c) && c != ' ')
}

/// Whether a name may begin with the character.
#[tactic(auto, unfolding(xt_names::specs::Characters::starts_name))]
pub fn starts_name(c: char) -> bool
    ensures { result ≡ starts_name c }
{
    is_ncname_start(c)
}

#[tactic(auto, unfolding(xt_names::specs::Characters::is_name_char))]
pub(crate) fn is_name_char(c: char) -> bool
    ensures { result ≡ is_name_char c }
{
    is_ncname_char(c)
}

/// Whether the character may be in a public identifier and is no quote.
fn is_public_char(c: char) -> bool
    ensures { result ≡ is_public_char c }
{
    matches!(c, ' ' | '\n' | '\r' | 'a'..='z' | 'A'..='Z' | '0'..='9' | '('..='/' | ':' | ';' | '=' | '?' | '@' | '!' | '#' | '$' | '%' | '_')
}

pub(crate) fn starts_colon_name(c: char) -> bool
    ensures { result ≡ starts_colon_name c }
{
    starts_name(c) || c == ':'
}

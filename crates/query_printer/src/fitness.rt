// Tokens whose texts can be written.
ghost use Rattle.std.specs.Prelude.{◌≡◌, ◌||◌};
ghost use Rattle.xt_names.specs.Allowed.{is_empty_text};
ghost use Rattle.xt_names.specs.Classes.{is_ncname_text};
ghost use Rattle.query_pages.specs.TokenTexts.Written.{is_named};
ghost use Rattle.token_laws.specs.WrittenTokens.Fit.{is_fit, are_fit};

use expr_terms::Token;
use expr_tokens::key_of_word;
use query_pages::Page;
use xt_names::{Text, is_ncname, is_xml_text};

/// A prefix, or none.
fn may_be_prefix(prefix: &Text) -> bool
    ensures { result ≡ (is_empty_text prefix.now || is_ncname_text prefix.now) }
{
    prefix.is_empty() || is_ncname(prefix.as_str())
}

/// A name with a prefix or without.
#[tactic(auto, using(crate::proofs::TokenLemmas::named))]
fn is_named(prefix: &Text, local: &Text) -> bool
    ensures { result ≡ is_named prefix.now local.now }
{
    may_be_prefix(prefix) && is_ncname(local.as_str())
}

/// Names are NCNames, and none that stands alone is a key; literals are of characters of XML, and
/// integers have no sign.
#[tactic(auto, using(crate::proofs::TokenLemmas::fits))]
fn is_fit(token: &Token) -> bool
    ensures { result ≡ is_fit token.now }
{
    match token {
        Token::Name(n) => is_ncname(n.as_str()) && !key_of_word(n.as_str()).is_some(),
        Token::Qname(p, n) => is_ncname(p.as_str()) && is_ncname(n.as_str()),
        Token::AnyLocal(n) | Token::AnyPrefix(n) => is_ncname(n.as_str()),
        Token::Digits(n) => *n >= 0,
        Token::Quoted(text) => is_xml_text(text.as_str()),
        Token::StartTagOpen(p, n) | Token::ChildTagOpen(p, n) => is_named(p, n),
        Token::Attribute(p, n) | Token::EndTag(p, n) => is_named(p, n),
        Token::Key(_) | Token::Chars(_, _) | Token::EnclosedOpen | Token::AttributeEnd => true,
        Token::TagEnd | Token::EmptyEnd => true,
    }
}

/// Whether the text of each token on the page can be written. The tokens are taken away.
/// (Namespaces in XML 1.0, 4; XPath 2.0, A.2; XQuery 1.0, A.2)
pub(crate) fn are_fit(page: &mut Page) -> bool
    ensures { result ≡ are_fit page.old }
{
    while let Some(token) = page.pop() {
        if !is_fit(&token) {
            return false;
        }
    }
    true
}

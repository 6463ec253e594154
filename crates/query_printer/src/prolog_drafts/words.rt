// Words and texts of a prolog on a draft.
ghost use Rattle.std.specs.Prelude.{◌≡◌, ◌∷◌, IfOk, OnOk, IsTrue, nat_lt, codes};
ghost use Rattle.std.specs.List.{list_all};
ghost use Rattle.expr_keys.specs.declared.tokens.Token.TheVariants as token_of;
ghost use Rattle.raw_tokens.specs.QueryTokens.Tokens.{behind_declare};
ghost use Rattle.printed_laws.specs.QueryRaws.Prologs.{token_or};

use expr_drafts::Draft;
use expr_terms::Token;
use query_pages::Gap;
use std::alloc::{AllocError, Global};
use xt_names::Text;

/// A text of ASCII.
#[tactic(auto, using(xt_names::proofs::TextLemmas::ascii_same))]
pub(crate) fn ascii_text(alloc: Global, text: &str) -> Result<Text, AllocError>
    requires { IsTrue (list_all (λ b. nat_lt b 128) text.now) }
    ensures { IfOk result (λ made. made ≡ text.now) }
{
    Text::make(alloc, text)
}

/// A word that is no key.
pub(crate) fn push_word(
    alloc: Global,
    draft: &mut Draft<'_>,
    first: Gap,
    word: &str,
) -> Result<(), AllocError>
    requires { IsTrue (list_all (λ b. nat_lt b 128) word.now) }
    ensures { OnOk result (draft.new ≡ token_of.Name word.now ∷ draft.old) }
{
    draft.push(first, Token::Name(ascii_text(alloc, word)?))
}

/// `declare` and the word after it, on a line of its own.
pub(crate) fn push_declare(
    alloc: Global,
    draft: &mut Draft<'_>,
    second: &str,
) -> Result<(), AllocError>
    requires { IsTrue (list_all (λ b. nat_lt b 128) second.now) }
    ensures { OnOk result (draft.new ≡ behind_declare second.now draft.old) }
{
    push_word(alloc, draft, Gap::Space, second)?;
    push_word(alloc, draft, Gap::Line(0), "declare")
}

/// A literal.
pub(crate) fn push_quoted(draft: &mut Draft<'_>, text: &Text) -> Result<(), AllocError>
    ensures { OnOk result (draft.new ≡ token_of.Quoted text.now ∷ draft.old) }
{
    draft.push(Gap::Space, Token::Quoted(text.copy()?))
}

/// The token of a name, which is one that can be written where there is one.
pub(crate) fn token_or(token: Option<Token>) -> Token
    ensures { result ≡ token_or token }
{
    match token {
        None => Token::EnclosedOpen,
        Some(token) => token,
    }
}

// Words.
ghost use Rattle.std.specs.Prelude.{◌≡◌, IfOk};
ghost use Rattle.expr_tokens.specs.Terms.{word_term};

use expr_terms::Token;
use expr_tokens::key_of_word;
use std::alloc::AllocError;
use xt_names::Text;

/// The word as a token: a key where some production names it, else a name.
pub fn word_term(text: &Text) -> Result<Token, AllocError>
    ensures { IfOk result (λ token. token ≡ word_term text.now) }
{
    match key_of_word(text.as_str()) {
        Some(key) => Ok(Token::Key(key)),
        None => Ok(Token::Name(text.copy()?)),
    }
}

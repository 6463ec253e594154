// Texts to tokens.
ghost use Rattle.std.specs.Prelude.{◌≡◌, map, option_map, IfOk};
ghost use Rattle.std.specs.Str.{chars};
ghost use Rattle.expr_tokens.specs.Terms.{written};
ghost use Rattle.expr_tokens.specs.TextTokens.Lexed.{lexed};

use std::alloc::{AllocError, Global};
use xpath_lex::{LexFault, Token, tokens};
use xt_names::List;

/// All tokens of the text; None where no token begins somewhere in it (XPath 2.0, A.2).
#[tactic(auto, using(crate::proofs::TextTokens::LexedLemmas::read, crate::proofs::TextTokens::LexedLemmas::not_read))]
pub fn lexed<'a>(alloc: Global, text: &'a str) -> Result<Option<List<Token<'a>>>, AllocError>
    ensures { IfOk result (λ list. option_map (map written) list ≡ lexed (chars text.now)) }
{
    match tokens(alloc, text) {
        Ok(list) => Ok(Some(list)),
        Err(LexFault::BadToken(_)) => Ok(None),
        Err(LexFault::Memory(e)) => Err(e),
    }
}

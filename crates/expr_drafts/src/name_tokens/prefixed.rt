// Tokens with the prefix of a uri.
ghost use Rattle.std.specs.Prelude.{◌≡◌, IfOk};
ghost use Rattle.expr_drafts.specs.NamePrefixes.Firsts.{prefix_of};
ghost use Rattle.expr_drafts.specs.NameTokens.Prefixed.{qualified_with, any_local_with};

use crate::name_prefixes::NamePrefixes;
use expr_terms::{Class, Token, fits};
use std::alloc::AllocError;
use xt_names::Text;

/// The local name with the first prefix that has the uri, where the class has such a token.
pub(crate) fn qualified_token(
    class: Class,
    prefixes: &NamePrefixes,
    uri: &Text,
    local: &Text,
) -> Result<Option<Token>, AllocError>
    ensures { IfOk result (λ token. token
        ≡ qualified_with class local.now (prefix_of prefixes.now.bound uri.now)) }
{
    match prefixes.prefix_of(uri) {
        None => Ok(None),
        Some(prefix) => {
            let token = Token::Qname(prefix.copy()?, local.copy()?);
            if fits(class, &token) {
                return Ok(Some(token));
            }
            Ok(None)
        }
    }
}

/// `p:*` with the first prefix that has the uri, where the class has such a token.
pub(crate) fn any_local_token(
    class: Class,
    prefixes: &NamePrefixes,
    uri: &Text,
) -> Result<Option<Token>, AllocError>
    ensures { IfOk result (λ token. token
        ≡ any_local_with class (prefix_of prefixes.now.bound uri.now)) }
{
    match prefixes.prefix_of(uri) {
        None => Ok(None),
        Some(prefix) => {
            let token = Token::AnyLocal(prefix.copy()?);
            if fits(class, &token) {
                return Ok(Some(token));
            }
            Ok(None)
        }
    }
}

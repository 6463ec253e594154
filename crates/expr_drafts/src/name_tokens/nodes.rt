// Names of nodes, which keep their prefixes.
ghost use Rattle.std.specs.Prelude.{◌≡◌, [], IfOk};
ghost use Rattle.expr_raws.specs.ElementRaws.Makers.{gives_name, node_spelling, node_token};

use crate::name_tokens::words::word_term;
use bound_prefixes::BoundPrefixes;
use expr_names::{ResolveFault, no_text, uri_in};
use expr_rules::expr_meant::written_in;
use expr_terms::{Class, Token, fits};
use std::alloc::{AllocError, Global};
use xt_names::{Name, Text};

/// Whether the token means the name of a node with its prefix, which is declared.
/// (XQuery 1.0, 3.7.1.2)
#[tactic(auto, using(crate::proofs::NameTokens::Faults::faults))]
pub fn gives_name(
    alloc: Global,
    bound: &BoundPrefixes,
    default: &Text,
    name: &Name,
    token: &Token,
) -> Result<bool, AllocError>
    ensures { IfOk result (λ gives. gives
        ≡ gives_name bound.now default.now name.now token.now) }
{
    let written = written_in(alloc, token)?;
    match uri_in(alloc, bound, default, &written) {
        Ok(uri) => Ok(
            written.prefix == name.prefix && (uri == name.uri && written.local == name.local),
        ),
        Err(ResolveFault::Static(_)) => Ok(false),
        Err(ResolveFault::Memory(e)) => Err(e),
    }
}

fn node_spelling(name: &Name) -> Result<Token, AllocError>
    ensures { IfOk result (λ token. token ≡ node_spelling name.now) }
{
    if name.prefix.is_empty() {
        return word_term(&name.local);
    }
    Ok(Token::Qname(name.prefix.copy()?, name.local.copy()?))
}

/// The token of the class that means the name of a node, with its prefix; None where it does not.
/// (XQuery 1.0, 3.7.3.1)
pub fn node_token(
    alloc: Global,
    class: Class,
    bound: &BoundPrefixes,
    default: &Text,
    name: &Name,
) -> Result<Option<Token>, AllocError>
    ensures { IfOk result (λ token. token ≡ node_token class bound.now default.now name.now) }
{
    let token = node_spelling(name)?;
    if !fits(class, &token) {
        return Ok(None);
    }
    if gives_name(alloc, bound, default, name, &token)? {
        return Ok(Some(token));
    }
    Ok(None)
}

/// The token of the class that means the name of a node which has no uri without a prefix: of an
/// attribute or a processing instruction.
/// (XQuery 1.0, 3.7.3.2 and 3.7.3.5)
pub fn bare_node_token(
    alloc: Global,
    class: Class,
    bound: &BoundPrefixes,
    name: &Name,
) -> Result<Option<Token>, AllocError>
    ensures { IfOk result (λ token. token ≡ node_token class bound.now [] name.now) }
{
    let none = no_text(alloc)?;
    node_token(alloc, class, bound, &none, name)
}

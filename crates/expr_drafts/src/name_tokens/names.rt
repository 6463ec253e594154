// Names of variables, functions, types and options.
ghost use Rattle.std.specs.Prelude.{◌≡◌, [], IfOk};
ghost use Rattle.expr_raws.specs.PathRaws.Names.{fitting, names, token_in};
ghost use Rattle.expr_raws.specs.PathRaws.Names.{name_token, function_token};

use crate::name_prefixes::NamePrefixes;
use crate::name_tokens::prefixed::qualified_token;
use crate::name_tokens::words::word_term;
use bound_prefixes::BoundPrefixes;
use expr_names::{ResolveFault, no_text, uri_in};
use expr_rules::expr_meant::written_in;
use expr_terms::{Class, Token, fits};
use std::alloc::{AllocError, Global};
use xt_names::{ExprName, Text};

/// Whether the token means the name, and its prefix is declared.
#[tactic(auto, using(crate::proofs::NameTokens::Faults::faults))]
fn names(
    alloc: Global,
    bound: &BoundPrefixes,
    default: &Text,
    name: &ExprName,
    token: &Token,
) -> Result<bool, AllocError>
    ensures { IfOk result (λ means. means ≡ names bound.now default.now name.now token.now) }
{
    let written = written_in(alloc, token)?;
    match uri_in(alloc, bound, default, &written) {
        Ok(uri) => Ok(uri == name.uri && written.local == name.local),
        Err(ResolveFault::Static(_)) => Ok(false),
        Err(ResolveFault::Memory(e)) => Err(e),
    }
}

fn is_fitting(
    alloc: Global,
    class: Class,
    bound: &BoundPrefixes,
    default: &Text,
    name: &ExprName,
    token: &Token,
) -> Result<bool, AllocError>
    ensures { IfOk result (λ fit. fit
        ≡ fitting class (names bound.now default.now name.now) token.now) }
{
    if !fits(class, token) {
        return Ok(false);
    }
    names(alloc, bound, default, name, token)
}

/// The word alone, or else the local name with the first prefix that has the uri.
#[tactic(auto, using(crate::proofs::NameTokens::Found::found_tokens))]
fn token_in(
    alloc: Global,
    class: Class,
    prefixes: &NamePrefixes,
    default: &Text,
    name: &ExprName,
) -> Result<Option<Token>, AllocError>
    ensures { IfOk result (λ token. token
        ≡ token_in class prefixes.now.bound default.now name.now) }
{
    let plain = prefixes.plain();
    let token = word_term(&name.local)?;
    if is_fitting(alloc, class, &plain.bound, default, name, &token)? {
        return Ok(Some(token));
    }
    qualified_token(class, prefixes, &name.uri, &name.local)
}

/// The token of the name of a variable or an option, which has no uri without a prefix; None where
/// no token means the name.
/// (XPath 2.0, 3.1.2)
pub fn name_token(
    alloc: Global,
    prefixes: &NamePrefixes,
    name: &ExprName,
) -> Result<Option<Token>, AllocError>
    ensures { IfOk result (λ token. token ≡ name_token prefixes.now.bound [] name.now) }
{
    let none = no_text(alloc)?;
    token_in(alloc, Class::Name, prefixes, &none, name)
}

/// The token of the name of a function, which has the default uri without a prefix; None where no
/// token means the name, or only one that names no function.
/// (XPath 2.0, 3.1.5; XQuery 1.0, A.3)
pub fn function_token(
    alloc: Global,
    prefixes: &NamePrefixes,
    default: &Text,
    name: &ExprName,
) -> Result<Option<Token>, AllocError>
    ensures { IfOk result (λ token. token
        ≡ function_token prefixes.now.bound default.now name.now) }
{
    token_in(alloc, Class::Function, prefixes, default, name)
}

// Name tests.
ghost use Rattle.std.specs.Prelude.{◌≡◌, ◌∷◌, [], IfOk};
ghost use Rattle.expr_primaries.specs.ExprPaths.Steps.{defaulted};
ghost use Rattle.expr_raws.specs.PathRaws.Names.{first_that, fitting, tests, same_test, test_token};

use crate::name_prefixes::NamePrefixes;
use crate::name_tokens::prefixed::{any_local_token, qualified_token};
use crate::name_tokens::words::word_term;
use bound_prefixes::BoundPrefixes;
use expr_names::{ResolveFault, default_in, name_test};
use expr_rules::expr_meant::written_test_in;
use expr_terms::{Class, Key, Token, fits};
use std::alloc::{AllocError, Global};
use xt_names::Text;
use xt_types::{Axis, NameTest};

/// Whether two name tests are the same.
/// (XPath 2.0, 3.2.1.2)
pub fn same_test(a: &NameTest, b: &NameTest) -> bool
    ensures { result ≡ same_test a.now b.now }
{
    match a {
        NameTest::Any => matches!(b, NameTest::Any),
        NameTest::Uri(u) => match b {
            NameTest::Uri(v) => *u == *v,
            _ => false,
        },
        NameTest::Local(m) => match b {
            NameTest::Local(n) => *m == *n,
            _ => false,
        },
        NameTest::Exact(m) => match b {
            NameTest::Exact(n) => *m == *n,
            _ => false,
        },
    }
}

#[tactic(auto, unfolding(expr_primaries::specs::ExprPaths::Steps::defaulted))]
fn defaulted(default: &Text, axis: Axis, test: NameTest) -> Result<NameTest, AllocError>
    ensures { IfOk result (λ made. made ≡ defaulted default.now axis test) }
{
    match axis {
        Axis::Attribute => Ok(test),
        _ => default_in(default, &test),
    }
}

/// Whether the token means the name test on the axis, and its prefix is declared.
#[tactic(auto, using(crate::proofs::NameTokens::Faults::faults))]
fn tests(
    alloc: Global,
    bound: &BoundPrefixes,
    default: &Text,
    axis: Axis,
    test: &NameTest,
    token: &Token,
) -> Result<bool, AllocError>
    ensures { IfOk result (λ means. means
        ≡ tests bound.now default.now axis test.now token.now) }
{
    let written = written_test_in(alloc, token)?;
    match name_test(alloc, bound, &written) {
        Ok(found) => {
            let found = defaulted(default, axis, found)?;
            Ok(same_test(&found, test))
        }
        Err(ResolveFault::Static(_)) => Ok(false),
        Err(ResolveFault::Memory(e)) => Err(e),
    }
}

fn is_fitting(
    alloc: Global,
    class: Class,
    bound: &BoundPrefixes,
    default: &Text,
    axis: Axis,
    test: &NameTest,
    token: &Token,
) -> Result<bool, AllocError>
    ensures { IfOk result (λ fit. fit
        ≡ fitting class (tests bound.now default.now axis test.now) token.now) }
{
    if !fits(class, token) {
        return Ok(false);
    }
    tests(alloc, bound, default, axis, test, token)
}

fn token_where_fitting(
    alloc: Global,
    class: Class,
    bound: &BoundPrefixes,
    default: &Text,
    axis: Axis,
    test: &NameTest,
    token: Token,
) -> Result<Option<Token>, AllocError>
    ensures { IfOk result (λ found. found
        ≡ first_that (fitting class (tests bound.now default.now axis test.now)) (token ∷ [])) }
{
    if is_fitting(alloc, class, bound, default, axis, test, &token)? {
        return Ok(Some(token));
    }
    Ok(None)
}

/// The token of the class that means the name test on the axis, where names of elements without a
/// prefix have the default uri; None where no token means it.
/// (XPath 2.0, 3.2.1.2)
#[tactic(auto, using(crate::proofs::NameTokens::Found::found_tokens))]
pub fn test_token(
    alloc: Global,
    class: Class,
    prefixes: &NamePrefixes,
    default: &Text,
    axis: Axis,
    test: &NameTest,
) -> Result<Option<Token>, AllocError>
    ensures { IfOk result (λ token. token
        ≡ test_token class prefixes.now.bound default.now axis test.now) }
{
    let plain = prefixes.plain();
    let bound = &plain.bound;
    match test {
        NameTest::Any => {
            let token = Token::Key(Key::Star);
            token_where_fitting(alloc, class, bound, default, axis, test, token)
        }
        NameTest::Uri(uri) => any_local_token(class, prefixes, uri),
        NameTest::Local(local) => {
            let token = Token::AnyPrefix(local.copy()?);
            token_where_fitting(alloc, class, bound, default, axis, test, token)
        }
        NameTest::Exact(name) => {
            let token = word_term(&name.local)?;
            if is_fitting(alloc, class, bound, default, axis, test, &token)? {
                return Ok(Some(token));
            }
            qualified_token(class, prefixes, &name.uri, &name.local)
        }
    }
}

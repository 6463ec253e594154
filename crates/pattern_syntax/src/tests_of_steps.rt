// Which tests patterns have.
ghost use Rattle.std.specs.Prelude.{◌≡◌};
ghost use Rattle.std.specs.List.{list_all};
ghost use Rattle.expr_terms.specs.declared.raws.Raw.TheViews.{out-Raw};
ghost use Rattle.pattern_syntax.specs.Parts.{is_document_token, is_quoted_token, first_is};
ghost use Rattle.pattern_syntax.specs.Parts.{is_pattern_kind, is_pattern_test_in, first_test};
ghost use Rattle.pattern_syntax.specs.Parts.{second_test, has_pattern_test, has_tests};
ghost use Rattle.pattern_syntax.specs.Parts.{has_pattern_tests};

use crate::parts::{alternatives, barless, steps_in};
use expr_terms::{Key, Production, Raw, Token};
use pattern_forms::pattern_shapes::inner_step;

fn is_document_token(token: &Token) -> bool
    ensures { result ≡ is_document_token token.now }
{
    match token {
        Token::Key(key) => match key {
            Key::DocumentNodeWord => true,
            _ => false,
        },
        _ => false,
    }
}

fn is_quoted_token(token: &Token) -> bool
    ensures { result ≡ is_quoted_token token.now }
{
    match token {
        Token::Quoted(_) => true,
        _ => false,
    }
}

/// Whether the test is document-node().
fn is_document(parts: &[Raw]) -> bool
    ensures { result ≡ first_is is_document_token parts.now }
{
    match parts {
        [] => false,
        [first, ..] => match first {
            Raw::Leaf(token) => is_document_token(token),
            Raw::Node(_, _) => false,
        },
    }
}

/// Whether the target is a literal.
fn is_quoted(parts: &[Raw]) -> bool
    ensures { result ≡ first_is is_quoted_token parts.now }
{
    match parts {
        [] => false,
        [first, ..] => match first {
            Raw::Leaf(token) => is_quoted_token(token),
            Raw::Node(_, _) => false,
        },
    }
}

/// Whether patterns have the test.
fn is_pattern_test(test: &Raw) -> bool
    ensures { result ≡ is_pattern_test_in (out-Raw test.now) }
{
    match test {
        Raw::Leaf(_) => true,
        Raw::Node(production, parts) => match production {
            Production::PlainKind => !is_document(parts.as_slice()),
            Production::PiKind => !is_quoted(parts.as_slice()),
            _ => false,
        },
    }
}

fn first_test(parts: &[Raw]) -> bool
    ensures { result ≡ first_test parts.now }
{
    match parts {
        [] => false,
        [test, ..] => is_pattern_test(test),
    }
}

fn second_test(parts: &[Raw]) -> bool
    ensures { result ≡ second_test parts.now }
{
    match parts {
        [] => false,
        [_, rest @ ..] => first_test(rest),
    }
}

/// Whether the test of the step is one that patterns have.
fn has_pattern_test(raw: &Raw) -> bool
    ensures { result ≡ has_pattern_test raw.now }
{
    match inner_step(raw) {
        Raw::Leaf(_) => false,
        Raw::Node(production, parts) => match production {
            Production::AxisStep => second_test(parts.as_slice()),
            _ => first_test(parts.as_slice()),
        },
    }
}

fn has_tests(raw: &Raw) -> bool
    ensures { result ≡ has_tests raw.now }
{
    steps_in(barless(raw))
        .iter()
        .all(|step| has_pattern_test(step))
}

/// Whether each test of the pattern is one that patterns have.
pub(crate) fn has_pattern_tests(raw: &Raw) -> bool
    ensures { result ≡ has_pattern_tests raw.now }
{
    alternatives(raw).iter().all(|one| has_tests(one))
}

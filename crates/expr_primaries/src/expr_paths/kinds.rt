// Kind tests.
ghost use Rattle.std.specs.Prelude.{◌≡◌, IfOk};
ghost use Rattle.expr_primaries.specs.ExprPaths.Steps.{plain_kind_of, plain_kind, target_of, pi_kind, named_kind_of, kind_name, named_kind};

use bound_prefixes::BoundPrefixes;
use expr_rules::expr_meant::{Meant, key_of, target_in};
use expr_rules::expr_names::default_in;
use expr_rules::name_test_of;
use expr_terms::Key;
use std::alloc::{AllocError, Global};
use xt_names::Text;
use xt_types::{NameTest, Test};

#[tactic(auto, unfolding(crate::specs::ExprPaths::Steps::plain_kind_of))]
fn plain_kind_of(key: Key) -> Test
    ensures { result ≡ plain_kind_of key }
{
    match key {
        Key::TextWord => Test::Text,
        Key::CommentWord => Test::Comment,
        Key::DocumentNodeWord => Test::Doc,
        _ => Test::Node,
    }
}

/// `node()`, `text()`, `comment()` or `document-node()`.
pub fn plain_kind(parts: &[Meant]) -> Test
    ensures { result ≡ plain_kind parts.now }
{
    match parts {
        [] => Test::Node,
        [word, ..] => plain_kind_of(key_of(word)),
    }
}

#[tactic(auto, unfolding(crate::specs::ExprPaths::Steps::target_of))]
fn target_of(alloc: Global, part: &Meant) -> Result<Option<Text>, AllocError>
    ensures { IfOk result (λ made. made ≡ target_of part.now) }
{
    match part {
        Meant::Token(token) => Ok(Some(target_in(alloc, token)?)),
        _ => Ok(None),
    }
}

/// `processing-instruction()`, or the same with a target.
pub fn pi_kind(alloc: Global, parts: &[Meant]) -> Result<Test, AllocError>
    ensures { IfOk result (λ made. made ≡ pi_kind parts.now) }
{
    match parts {
        [] => Ok(Test::Pi(None)),
        [target, ..] => Ok(Test::Pi(target_of(alloc, target)?)),
    }
}

#[tactic(auto, unfolding(crate::specs::ExprPaths::Steps::named_kind_of))]
fn named_kind_of(default: &Text, key: Key, name: NameTest) -> Result<Test, AllocError>
    ensures { IfOk result (λ made. made ≡ named_kind_of default.now key name) }
{
    match key {
        Key::ElementWord => Ok(Test::Elem(default_in(default, &name)?)),
        _ => Ok(Test::Attr(name)),
    }
}

fn kind_name(alloc: Global, bound: &BoundPrefixes, parts: &[Meant]) -> Result<NameTest, AllocError>
    ensures { IfOk result (λ made. made ≡ kind_name bound.now parts.now) }
{
    match parts {
        [] => Ok(NameTest::Any),
        [name, ..] => name_test_of(alloc, bound, name),
    }
}

/// `element()` or `attribute()`, or the same with a name or `*`.
pub fn named_kind(
    alloc: Global,
    bound: &BoundPrefixes,
    default: &Text,
    parts: &[Meant],
) -> Result<Test, AllocError>
    ensures { IfOk result (λ made. made ≡ named_kind bound.now default.now parts.now) }
{
    match parts {
        [] => Ok(Test::Node),
        [word, rest @ ..] => {
            let name = kind_name(alloc, bound, rest)?;
            named_kind_of(default, key_of(word), name)
        }
    }
}

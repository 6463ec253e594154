// Names as tokens write them.
ghost use Rattle.std.specs.Prelude.{◌≡◌, [], IfOk};
ghost use Rattle.expr_rules.specs.ExprMeant.Names.{written_key, written_in, written_of, written_test_in, target_in};

use crate::expr_meant::meant::Meant;
use expr_names::{Written, WrittenTest, no_text};
use expr_terms::{Key, Token, key_text, same_key};
use std::alloc::{AllocError, Global};
use xt_names::Text;

fn written_key(alloc: Global, key: Key) -> Result<Written, AllocError>
    ensures { IfOk result (λ made. made ≡ written_key key) }
{
    Ok(Written {
        prefix: no_text(alloc)?,
        local: Text::make(alloc, key_text(key))?,
    })
}

fn written_pair(prefix: &Text, local: &Text) -> Result<Written, AllocError>
    ensures { IfOk result (λ made. made ≡ record { prefix = prefix.now; local = local.now }) }
{
    Ok(Written {
        prefix: prefix.copy()?,
        local: local.copy()?,
    })
}

fn written_local(alloc: Global, local: &Text) -> Result<Written, AllocError>
    ensures { IfOk result (λ made. made ≡ record { prefix = []; local = local.now }) }
{
    Ok(Written {
        prefix: no_text(alloc)?,
        local: local.copy()?,
    })
}

fn nothing_written(alloc: Global) -> Result<Written, AllocError>
    ensures { IfOk result (λ made. made ≡ record { prefix = []; local = [] }) }
{
    Ok(Written {
        prefix: no_text(alloc)?,
        local: no_text(alloc)?,
    })
}

/// The name of a word, a QName, a tag or an attribute.
#[tactic(auto, unfolding(crate::specs::ExprMeant::Names::written_in))]
pub fn written_in(alloc: Global, token: &Token) -> Result<Written, AllocError>
    ensures { IfOk result (λ made. made ≡ written_in token.now) }
{
    match token {
        Token::Key(key) => written_key(alloc, *key),
        Token::Name(local) => written_local(alloc, local),
        Token::Qname(prefix, local)
        | Token::StartTagOpen(prefix, local)
        | Token::ChildTagOpen(prefix, local)
        | Token::Attribute(prefix, local)
        | Token::EndTag(prefix, local) => written_pair(prefix, local),
        _ => nothing_written(alloc),
    }
}

/// The name that the part writes.
#[tactic(auto, unfolding(crate::specs::ExprMeant::Names::written_of))]
pub fn written_of(alloc: Global, part: &Meant) -> Result<Written, AllocError>
    ensures { IfOk result (λ made. made ≡ written_of part.now) }
{
    match part {
        Meant::Token(token) => written_in(alloc, token),
        _ => nothing_written(alloc),
    }
}

/// The name test that the token writes.
#[tactic(auto, unfolding(crate::specs::ExprMeant::Names::written_test_in))]
pub fn written_test_in(alloc: Global, token: &Token) -> Result<WrittenTest, AllocError>
    ensures { IfOk result (λ made. made ≡ written_test_in token.now) }
{
    match token {
        Token::Key(key) => {
            if same_key(Key::Star, *key) {
                return Ok(WrittenTest::Any);
            }
            Ok(WrittenTest::Exact(written_key(alloc, *key)?))
        }
        Token::AnyLocal(prefix) => Ok(WrittenTest::Prefix(prefix.copy()?)),
        Token::AnyPrefix(local) => Ok(WrittenTest::Local(local.copy()?)),
        _ => Ok(WrittenTest::Exact(written_in(alloc, token)?)),
    }
}

/// The target that the token writes: a name, or what a literal holds.
#[tactic(auto, unfolding(crate::specs::ExprMeant::Names::target_in))]
pub fn target_in(alloc: Global, token: &Token) -> Result<Text, AllocError>
    ensures { IfOk result (λ made. made ≡ target_in token.now) }
{
    match token {
        Token::Quoted(text) => text.copy(),
        _ => Ok(written_in(alloc, token)?.local),
    }
}

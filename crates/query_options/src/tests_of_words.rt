// Name tests of their texts.
ghost use Rattle.std.specs.Prelude.{◌≡◌, IfOk};
ghost use Rattle.std.specs.Str.{chars};
ghost use Rattle.query_options.specs.Spaces.{bare_test, test_of_any, test_of_prefix, parted_test, written_test};

use expr_names::{Written, WrittenTest, no_text};
use std::alloc::{AllocError, Global};
use text_operations::split_at_first;
use xt_names::{Text, is_ascii_text, is_ncname};

/// The name test that the word writes (XPath 2.0, 3.2.1.2), where it writes one.
#[tactic(auto, using(xt_names::proofs::TextLemmas::colon_chars), unfolding(crate::specs::Spaces::written_test))]
pub fn written_test(alloc: Global, text: &str) -> Result<Option<WrittenTest>, AllocError>
    ensures { IfOk result (λ test. test ≡ written_test (chars text.now)) }
{
    match split_at_first(text, ":") {
        Some((prefix, local)) => parted_test(alloc, prefix, local),
        None => bare_test(alloc, text),
    }
}

fn bare_test(alloc: Global, text: &str) -> Result<Option<WrittenTest>, AllocError>
    ensures { IfOk result (λ test. test ≡ bare_test (chars text.now)) }
{
    if is_ascii_text(text, "*") {
        return Ok(Some(WrittenTest::Any));
    }
    if !is_ncname(text) {
        return Ok(None);
    }
    let prefix = no_text(alloc)?;
    let local = Text::make(alloc, text)?;
    Ok(Some(WrittenTest::Exact(Written { prefix, local })))
}

fn test_of_any(alloc: Global, local: &str) -> Result<Option<WrittenTest>, AllocError>
    ensures { IfOk result (λ test. test ≡ test_of_any (chars local.now)) }
{
    if !is_ncname(local) {
        return Ok(None);
    }
    Ok(Some(WrittenTest::Local(Text::make(alloc, local)?)))
}

fn test_of_prefix(
    alloc: Global,
    prefix: &str,
    local: &str,
) -> Result<Option<WrittenTest>, AllocError>
    ensures { IfOk result (λ test. test ≡ test_of_prefix (chars prefix.now) (chars local.now)) }
{
    if is_ascii_text(local, "*") {
        return Ok(Some(WrittenTest::Prefix(Text::make(alloc, prefix)?)));
    }
    if !is_ncname(local) {
        return Ok(None);
    }
    let prefix = Text::make(alloc, prefix)?;
    let local = Text::make(alloc, local)?;
    Ok(Some(WrittenTest::Exact(Written { prefix, local })))
}

fn parted_test(alloc: Global, prefix: &str, local: &str) -> Result<Option<WrittenTest>, AllocError>
    ensures { IfOk result (λ test. test ≡ parted_test (chars prefix.now) (chars local.now)) }
{
    if is_ascii_text(prefix, "*") {
        return test_of_any(alloc, local);
    }
    if is_ncname(prefix) {
        return test_of_prefix(alloc, prefix, local);
    }
    Ok(None)
}
